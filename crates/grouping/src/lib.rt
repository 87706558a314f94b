//! Messages that wait are answered as a group: each request is a commit of its own, and the disk is synced twice for
//! all of them. No answer is given before the disk has the whole group.
//!
//! If the drive fails, the group is taken back as if it had not come, and its messages are answered one by one. So each
//! answer is one that the messages would get without groups.
#![tactic(auto)]

mod group;
mod held;
mod laws;
mod open_group;
mod serving;

pub use group::answer_group;
pub use held::answer_groups_held;
pub use laws::{phases_are_of_commits, taking_back_holds};
pub use open_group::{GroupFault, OpenGroup};
pub use serving::serve_groups;
