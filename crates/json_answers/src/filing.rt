//! Who tells the answers to a script: in a form alone, or with a clerk, who files its pictures and networks.

ghost use Rattle.std.specs.Prelude.{◌≡◌, ◌++◌, IfOk, IfSome, OnOk, string_bytes};
ghost use Rattle.answers.specs.Filed.{IsFiled, IsUnfiled};
ghost use Rattle.json_answers.specs.Form.{printed_in};

use crate::form::Form;
use answers::{Answer, Asked, Boxed, NetAnswer, Publication, Reason, RowAnswer, Telling, Text};
use net_data::Net;
use std::alloc::{AllocError, Global};

/// Lets go what is told of a row. A function of its own, as those below, so that this is done in one place.
fn let_go_row(_row: RowAnswer) {}

/// Lets go what is told of the whole network.
fn let_go_net(_net: NetAnswer) {}

/// Lets go what is told of a publication.
fn let_go_publication(_publication: Publication) {}

/// Lets an answer go.
fn let_go(answer: Answer) {
    match answer {
        Answer::Row(row) => let_go_row(row),
        Answer::Net(net) => let_go_net(net),
        Answer::Publication(publication) => let_go_publication(publication),
        Answer::Shown(shown) => drop(shown),
        Answer::Who(counts) => drop(counts),
        Answer::Help(text) => drop(text),
        Answer::AllTaken(taken) => drop(taken),
        Answer::Reply(_) | Answer::Refused(_) => {}
    }
}

/// Prints an answer, and lets it go.
fn print(form: Form, alloc: Global, answer: Answer, text: &mut String) -> Result<(), AllocError>
    ensures { OnOk result (string_bytes text.new ≡ string_bytes text.old ++ printed_in form answer) }
{
    let printed = form.print(alloc, &answer, text);
    let_go(answer);
    printed
}

/// A form tells each answer as it is printed.
impl Telling for Form {
    ghost use Rattle.std.specs.Prelude.{◌≡◌};
    ghost use Rattle.json_answers.specs.Form.{printed_in};

    ghost tells = { λ form answer text. text ≡ printed_in form answer };

    fn tell(
        &self,
        alloc: Global,
        _asked: Asked<'_>,
        answer: Answer,
        text: &mut String,
    ) -> Result<(), AllocError> {
        print(*self, alloc, answer, text)
    }
}

/// What a line asks to be put into a file.
#[derive(Clone, Copy)]
pub enum Content<'a> {
    /// A picture.
    Picture(&'a str),
    /// A network.
    Net(&'a Net),
}

/// What became of it.
#[derive(Clone, Copy, Debug, PartialEq, Eq)]
pub enum Outcome {
    /// It is in the file.
    Written,
    /// The file can't be written.
    Failed,
    /// No files may be written.
    Forbidden,
}

/// Who puts the pictures and networks of a script into files, and sees what its lines are answered.
pub trait Clerk {
    /// Puts what a line asks for into a file, and tells what became of it.
    ///
    /// # Errors
    ///
    /// Memory is refused.
    fn put(
        &self,
        alloc: Global,
        asked: Asked<'_>,
        file: &str,
        content: Content<'_>,
    ) -> Result<Outcome, AllocError>;

    /// Whether it explains why lines are refused, and so is to be shown the network.
    fn explains(&self) -> bool {
        false
    }

    /// Explains why a line is refused, by the network after all accepted events. It is called before that is told, maybe under a lock: what it
    /// has to say it says later.
    fn explain(&self, _alloc: Global, _asked: Asked<'_>, _why: Reason, _net: &Net) {}

    /// Sees what is told of a line, before it is.
    fn see(&self, alloc: Global, asked: Asked<'_>, answer: &Answer);
}

/// Who tells the answers to a script in a form, and has a clerk put its pictures and networks into files: in the place of one it is told
/// that it is in its file, that the file can't be written, or that none may be.
#[derive(Drop)]
pub struct Filing<C> {
    /// The form.
    pub form: Form,
    /// The clerk.
    pub clerk: C,
}

/// Why something isn't in its file, by what became of it. `None` if it is.
fn reason_of(outcome: Outcome) -> Option<Reason>
    ensures { IfSome result (λ reason. IsUnfiled (Answer.Refused reason)) }
{
    match outcome {
        Outcome::Written => None,
        Outcome::Failed => Some(Reason::Write),
        Outcome::Forbidden => Some(Reason::BadLine),
    }
}

/// What is told of a picture, once the clerk was given it.
fn filed_picture<C: Clerk>(
    clerk: &C,
    alloc: Global,
    asked: Asked<'_>,
    file: Text,
    picture: Boxed<Text>,
) -> Result<Answer, AllocError>
    ensures { IfOk result (IsFiled (Answer.Net (NetAnswer.Picture file picture))) }
{
    let content = Content::Picture(picture.get().as_str());
    let outcome = clerk.put(alloc, asked, file.as_str(), content)?;
    match reason_of(outcome) {
        None => Ok(Answer::Net(NetAnswer::Drawn(file))),
        Some(reason) => Ok(Answer::Refused(reason)),
    }
}

/// What is told of a network, once the clerk was given it.
fn filed_net<C: Clerk>(
    clerk: &C,
    alloc: Global,
    asked: Asked<'_>,
    file: Text,
    net: Boxed<Net>,
) -> Result<Answer, AllocError>
    ensures { IfOk result (IsFiled (Answer.Net (NetAnswer.Saving file net))) }
{
    let content = Content::Net(net.get());
    let outcome = clerk.put(alloc, asked, file.as_str(), content)?;
    match reason_of(outcome) {
        None => Ok(Answer::Net(NetAnswer::Saved(file))),
        Some(reason) => Ok(Answer::Refused(reason)),
    }
}

/// What is told in the place of an answer.
fn filed<C: Clerk>(
    clerk: &C,
    alloc: Global,
    asked: Asked<'_>,
    answer: Answer,
) -> Result<Answer, AllocError>
    ensures { IfOk result (IsFiled answer) }
{
    match answer {
        Answer::Net(NetAnswer::Picture(file, picture)) => {
            filed_picture(clerk, alloc, asked, file, picture)
        }
        Answer::Net(NetAnswer::Saving(file, net)) => filed_net(clerk, alloc, asked, file, net),
        other => Ok(other),
    }
}

/// Has the clerk see what is told of a line, prints it, and lets it go.
fn show<C: Clerk>(
    filing: &Filing<C>,
    alloc: Global,
    asked: Asked<'_>,
    told: Answer,
    text: &mut String,
) -> Result<(), AllocError>
    ensures { OnOk result (string_bytes text.new ≡ string_bytes text.old ++ printed_in filing.now.form told) }
{
    filing.clerk.see(alloc, asked, &told);
    print(filing.form, alloc, told, text)
}

impl<C: Clerk> Telling for Filing<C> {
    ghost use Rattle.json_answers.specs.Filing.{IsToldIn};

    ghost tells = { λ filing answer text. IsToldIn filing.form answer text };

    fn explains(&self) -> bool {
        self.clerk.explains()
    }

    fn explain(&self, alloc: Global, asked: Asked<'_>, why: Reason, net: &Net) {
        self.clerk.explain(alloc, asked, why, net);
    }

    fn tell(
        &self,
        alloc: Global,
        asked: Asked<'_>,
        answer: Answer,
        text: &mut String,
    ) -> Result<(), AllocError> {
        let told = filed(&self.clerk, alloc, asked, answer)?;
        show(self, alloc, asked, told, text)
    }
}
