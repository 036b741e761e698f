//! What holds of the spellings of all messages.

ghost use Rattle.resolver_wire.specs.Spelling.{EachHasOneSpelling};
ghost use Rattle.resolver_wire.specs.Reading.{NoneBeginsAnother};

use resolver_base::Span;

/// Each message has one spelling.
pub fn each_has_one_spelling<Key: Span>()
    ensures { EachHasOneSpelling Key.bytes_of }
{}

/// No spelling begins that of another message.
pub fn none_begins_another<Key: Span>()
    ensures { NoneBeginsAnother Key.bytes_of Key.eq }
{}
