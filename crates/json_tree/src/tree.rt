use crate::NumberText;
use fold_base::{List, Text};

/// A JSON value (RFC 8259, section 3): the texts of numbers as they were spelled, words after their escapes are read,
/// and the members of an object in their order.
#[cycle(json)]
#[derive(Debug, Drop)]
pub enum Json {
    Null,
    Truth(bool),
    Number(NumberText),
    Word(Text),
    List(List<Json>),
    Object(List<Member>),
}

/// A member of an object.
#[cycle(json)]
#[derive(Debug, Drop)]
pub struct Member {
    pub key: Text,
    pub value: Json,
}
