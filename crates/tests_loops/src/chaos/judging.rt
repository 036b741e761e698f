//! A twin that a model judges.

use crate::script::write_event;
use crate::twin::{Hands, Happened, Steps, Twin};
use std::io::Print;
use std::panic::Expect;
use std::process::Abort;

impl Hands {
    /// The core takes this event.
    pub fn note_event(&mut self, rt: &impl Abort, event: &Happened) {
        write_event(rt, &mut self.script, event);
        if let Some(model) = &mut self.model {
            model.take(self.now, event).expect(rt, "memory");
        }
    }

    /// Ends the test where the model says that something is wrong.
    pub fn judge_model(&self, rt: &(impl Abort + Print)) {
        let Some(model) = &self.model else {
            return;
        };
        let Some(why) = model.complaint else {
            return;
        };
        let (wanted, came) = (model.expected.as_str(), model.told.as_str());
        let _ = println!(rt; "# wanted of the last event:\n{wanted}# came:\n{came}");
        self.fail(rt, why)
    }
}

impl<C: Steps> Twin<C> {
    /// The model judges what the last event came to.
    pub fn judge_event(&mut self, rt: &(impl Abort + Print)) {
        if self.hands.model.is_none() {
            return;
        }
        let rows = self.rows(rt);
        if let Some(model) = &mut self.hands.model {
            model.judge_event(rows.as_slice()).expect(rt, "memory");
        }
        self.hands.judge_model(rt);
    }

    /// The model judges what the core waits for.
    pub fn judge_waits(&mut self, rt: &(impl Abort + Print)) {
        let (active, pending) = self.deadlines();
        if let Some(model) = &mut self.hands.model {
            model.judge_waits(active, pending);
        }
        self.hands.judge_model(rt);
    }
}
