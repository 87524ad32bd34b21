// The script language: one line, one action, one answer.
#![tactic(auto)]

mod answer;
mod element;
mod playing;
mod showing;
mod spelling;
mod stop;
mod verb;

pub use answer::Answer;
pub use element::Element;
pub use playing::{play, play_line};
pub use stop::UnknownName;
pub use verb::Verb;
