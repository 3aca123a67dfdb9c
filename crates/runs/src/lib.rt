// The calls of a line one after the other, and what whoever looks at the line between them or after them sees.
#![tactic(auto)]

pub mod model;
pub mod opened;
pub mod perform;
pub mod replay;
pub mod unwatched;
