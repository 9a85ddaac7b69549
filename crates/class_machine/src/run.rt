// What changes in a run.

use crate::frame::Frame;
use crate::heap::Object;
use class_file::value::BuiltIn;

/// A run: its frames, the running one last, and none before main is called; the objects that were made, each under its number;
/// and for each class of the set whether its initialisation has begun.
#[derive(Drop)]
pub struct Run {
    pub frames: Vec<Frame>,
    pub heap: Vec<Object>,
    pub started: Vec<bool>,
}

/// How a step ended.
#[derive(Clone, Copy)]
pub enum StepEnd {
    On,
    Ended,
    Threw(BuiltIn),
}
