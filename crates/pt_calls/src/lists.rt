//! Lists in calls and answers.
use call_grammar::Items;
use ubik_types::Bytes;

pub type Names = Items<Bytes>;

pub type Ids = Items<i32>;
