// What is answered to a line.
use crate::element::Element;
use crate::verb::Verb;
use answers::Fault;
use networking::MessageHeader;

#[derive(Drop)]
pub enum Answer {
    // The line is empty or a comment.
    Nothing,
    // The line has not the form of its verb, or no known verb.
    Unreadable(Option<Verb>),
    // The octets of a message.
    Message(Vec<u8>),
    // The header that was read, or none.
    Header(Option<MessageHeader>),
    // The element that was read.
    Element(Element),
    // The action was refused.
    Refused(Verb, Fault),
}
