//! What the names of keys mean to the store.
#![tactic(auto)]

mod key_class;

pub use key_class::{
    KeyClass, class_of, counter_of, ident_of, is_list_of, is_name, is_queue, name_text, queue_of,
};
