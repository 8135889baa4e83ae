//! What a line of a script is answered, and who tells it.

pub use answers::{
    Action, AllTaken, Answer, Asked, Boxed, Moved, NetAnswer, Offer, Publication, Reason, Remedy,
    Reply, RowAnswer, SeatCount, SeatCounts, SeatNames, TakenEvents, Telling, Text, Way, Ways,
    answer_who, print_answer, put_answer,
};
pub use json_answers::{Clerk, Content, Filing, Form, Outcome};
