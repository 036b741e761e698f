//! The mailbox, its desk and its handles.

mod desk;
mod handles;
mod mailbox;
mod messages;
mod names;
mod threads;
