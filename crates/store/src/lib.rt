// The window's frames in the lent store (01, 'Window'; the place of a frame is docs/DECISIONS.md's), and the marks of the epochs that stand there whole.
#![tactic(auto)]

pub mod frames;
pub mod marks;
