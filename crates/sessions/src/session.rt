//! A run of a script: the lines that are read, and their answers.

ghost use Rattle.std.specs.Prelude.{◌≡◌, ℕ, ◌+◌, ◌*◌, ◌^◌, ◌<◌, ◌≤◌, ◌==◌, not, true, ◌⊎◌, [], ◌∷◌, ◌++◌, List, length, take, IfErr, OnOk, OnErr, Err, string_bytes, Option};
ghost use Rattle.answers.specs.declared.answer.Answer.{Answer as AnswerValue};
ghost use Rattle.std.specs.List.{list_all};
ghost use Rattle.std.specs.Io.KnownBytes.{Appends};
ghost use Rattle.sessions.specs.Lines.{line_count, whole_lines};
ghost use Rattle.sessions.specs.Replies.{Replied};
ghost use Rattle.sessions.specs.Run.{IsLine, IsTaken, IsAt, IsUnkept, IsCutAt, IsCutOff, CutsOff};

use crate::answering::Answering;
use crate::faults::Fault;
use crate::lines::{LINE_LIMIT, Line, is_quiet, without_return};
use crate::scanning::{count_lines, split_line};
use answers::{Answer, Asked, Reason, Telling};
use std::alloc::{AllocError, Global};
use std::io::{ErrorKind, Write};

/// Who answers, the line that is being read, the answers that wait to be written, and how many lines were written.
#[derive(Drop)]
pub struct Session<A> {
    pub state: A,
    pub line: Line,
    pub answers: Vec<u8>,
    pub lines: u128,
    /// The number of the line that is being read, from 1.
    pub number: u64,
    /// The answer to the last line, whose memory serves the next one.
    pub text: String,
}

/// The number of writes after which a text is given up.
const WRITE_LIMIT: u64 = 4294967296;

/// Writes a text, and tells how many of its bytes were written: fewer than all if the writer refuses. An interrupted write
/// is tried again.
fn write_all<W: Write>(writer: &mut W, text: &[u8]) -> usize
    ensures within { result ≤ length text.now }
    ensures written { Appends (W.contents writer.old) (W.contents writer.new) (take result text.now) }
{
    let mut at = 0;
    for _turn in 0..WRITE_LIMIT {
        if at == text.len() {
            return at;
        }
        match writer.write(&text[at..]) {
            Ok(0) => return at,
            Ok(n) => at += n,
            Err(e) => {
                if e.kind() != ErrorKind::Interrupted {
                    return at;
                }
            }
        }
    }
    at
}

/// Begins the text of a line with what is told of its answer, and has that go.
fn tell<T: Telling>(
    alloc: Global,
    telling: &T,
    asked: Asked<'_>,
    answer: Answer,
    text: &mut String,
) -> Result<(), AllocError>
    requires { string_bytes text.old ≡ [] }
    ensures { OnOk result (T.tells telling.now answer (string_bytes text.new)) }
{
    telling.tell(alloc, asked, answer, text)
}

/// Writes what a line is told that is too long.
fn tell_bad_line<T: Telling>(
    alloc: Global,
    telling: &T,
    number: u64,
    text: &mut String,
) -> Result<(), AllocError>
    ensures { OnOk result (T.tells telling.now (Answer.Refused Reason.BadLine) (string_bytes text.new)) }
{
    text.clear();
    let asked = Asked { number, line: None };
    tell(
        alloc,
        telling,
        asked,
        Answer::Refused(Reason::BadLine),
        text,
    )
}

/// Shows the network to who explains why a line is refused, if its answer says so.
fn show_if_refused<A: Answering, T: Telling>(
    alloc: Global,
    state: &A,
    telling: &T,
    asked: Asked<'_>,
    answer: &Answer,
) {
    if let Answer::Refused(why) = answer {
        if telling.explains() {
            state.show_net(alloc, telling, asked, *why);
        }
    }
}

/// Writes the answer to a line, which is neither too long nor silent.
fn answer_line<A: Answering, T: Telling>(
    alloc: Global,
    state: &mut A,
    telling: &T,
    number: u64,
    line: &[u8],
    text: &mut String,
) -> Result<(), Fault>
    requires { string_bytes text.old ≡ [] }
    ensures text { OnOk result ((answer : AnswerValue) × A.commands line.now state.old answer state.new × T.tells telling.now answer (string_bytes text.new)) }
    ensures lost { OnErr result (((answer : AnswerValue) × A.commands line.now state.old answer state.new) ⊎ A.fails line.now state.old state.new) }
    ensures fault { IfErr result (CutsOff A.needs_place) }
{
    let answer = state.answer(alloc, line)?;
    let asked = Asked {
        number,
        line: Some(line),
    };
    show_if_refused(alloc, state, telling, asked, &answer);
    Ok(tell(alloc, telling, asked, answer, text)?)
}

/// Writes what a line is answered with in the place of a text.
fn reply<A: Answering, T: Telling>(
    alloc: Global,
    state: &mut A,
    telling: &T,
    number: u64,
    line: &[u8],
    text: &mut String,
) -> Result<(), Fault>
    ensures text { OnOk result (Replied (T.tells telling.now) A.commands line.now state.old (string_bytes text.new) state.new) }
    ensures lost { OnErr result (IsUnkept A.commands A.fails line.now state.old state.new) }
    ensures fault { IfErr result (CutsOff A.needs_place) }
{
    let line = without_return(line);
    if line.len() > LINE_LIMIT {
        return Ok(tell_bad_line(alloc, telling, number, text)?);
    }
    text.clear();
    if is_quiet(line) {
        return Ok(());
    }
    answer_line(alloc, state, telling, number, line, text)
}

/// Writes what a line that was read in pieces is answered with, as `reply` does.
fn reply_to_kept<A: Answering, T: Telling>(
    alloc: Global,
    state: &mut A,
    telling: &T,
    number: u64,
    line: &Line,
    text: &mut String,
) -> Result<(), Fault>
    ensures text { OnOk result ((rest : List ℕ) → IsLine line.now rest → Replied (T.tells telling.now) A.commands rest state.old (string_bytes text.new) state.new) }
    ensures lost { OnErr result ((rest : List ℕ) → IsLine line.now rest → IsUnkept A.commands A.fails rest state.old state.new) }
    ensures fault { IfErr result (CutsOff A.needs_place) }
{
    if !line.too_long {
        return reply(alloc, state, telling, number, line.bytes.as_slice(), text);
    }
    Ok(tell_bad_line(alloc, telling, number, text)?)
}

impl<A: Answering> Session<A> {
    /// A run that has read nothing of a script, whose first line has this number.
    pub fn new(alloc: Global, state: A, number: u64) -> Session<A>
        ensures state { result.state ≡ state }
        ensures line { IsLine result.line [] }
        ensures answers { result.answers.items ≡ [] }
        ensures lines { result.lines ≡ 0 }
        ensures number { result.number ≡ number }
    {
        Session {
            state,
            line: Line::new(alloc),
            answers: Vec::new(alloc),
            lines: 0,
            number,
            text: String::new(alloc),
        }
    }

    /// Writes what the line is answered with, of which these bytes are the last. One that stands whole in what was read is
    /// answered from there.
    fn reply_to_line<T: Telling>(
        &mut self,
        alloc: Global,
        telling: &T,
        last: &[u8],
    ) -> Result<(), Fault>
        ensures text { OnOk result ((rest : List ℕ) → IsLine self.old.line rest
            → Replied (T.tells telling.now) A.commands (rest ++ last.now) self.old.state (string_bytes self.new.text) self.new.state) }
        ensures lost { OnErr result ((rest : List ℕ) → IsLine self.old.line rest
            → IsUnkept A.commands A.fails (rest ++ last.now) self.old.state self.new.state) }
        ensures fault { IfErr result (CutsOff A.needs_place) }
        ensures answers { self.new.answers ≡ self.old.answers }
        ensures lines { self.new.lines ≡ self.old.lines }
    {
        if !self.line.has_begun() {
            return reply(
                alloc,
                &mut self.state,
                telling,
                self.number,
                last,
                &mut self.text,
            );
        }
        self.line.take_all(last)?;
        reply_to_kept(
            alloc,
            &mut self.state,
            telling,
            self.number,
            &self.line,
            &mut self.text,
        )
    }

    /// Ends the line with its last bytes: its answer waits with the others.
    fn end_line<T: Telling>(&mut self, alloc: Global, telling: &T, last: &[u8]) -> Result<(), Fault>
        ensures ok { OnOk result ((start : A) (read written : List ℕ) → list_all (λ b. not (b == 10)) last.now ≡ true
            → IsTaken (T.tells telling.now) A.commands start read written self.old → IsTaken (T.tells telling.now) A.commands start ((read ++ last.now) ++ 10 ∷ []) written self.new) }
        ensures err { OnErr result (self.new.answers.items ≡ self.old.answers.items) }
        ensures lost { OnErr result ((rest : List ℕ) → IsLine self.old.line rest
            → IsUnkept A.commands A.fails (rest ++ last.now) self.old.state self.new.state) }
        ensures fault { IfErr result (CutsOff A.needs_place) }
        ensures lines { self.new.lines ≡ self.old.lines }
    {
        self.reply_to_line(alloc, telling, last)?;
        self.answers.extend_from_slice(self.text.as_bytes())?;
        self.line.clear();
        self.number = self.number.saturating_add(1);
        Ok(())
    }

    /// Takes the bytes of one read.
    fn feed<T: Telling>(&mut self, alloc: Global, telling: &T, chunk: &[u8]) -> Result<(), Fault>
        ensures ok { OnOk result ((start : A) (read written : List ℕ)
            → IsTaken (T.tells telling.now) A.commands start read written self.old → IsTaken (T.tells telling.now) A.commands start (read ++ chunk.now) written self.new) }
        ensures front { (start : A) (read written : List ℕ) → IsTaken (T.tells telling.now) A.commands start read written self.old
            → IsCutAt (T.tells telling.now) A.commands A.fails start (whole_lines (read ++ chunk.now)) (written ++ self.new.answers.items) self.new.state }
        ensures fault { IfErr result (CutsOff A.needs_place) }
        ensures lines { self.new.lines ≡ self.old.lines }
    {
        let mut rest = chunk;
        while let Some((front, after)) = split_line(rest) {
            self.end_line(alloc, telling, front)?;
            rest = after;
        }
        self.line.take_all(rest)?;
        Ok(())
    }

    /// Writes the answers that wait.
    fn flush<W: Write>(&mut self, writer: &mut W) -> Result<(), Fault>
        requires { self.old.lines + 2 ^ 64 ≤ 2 ^ 128 }
        ensures ok { OnOk result (Appends (W.contents writer.old) (W.contents writer.new) self.old.answers.items
            × (self.new.answers.items ≡ []) × (self.new.lines ≡ self.old.lines + line_count self.old.answers.items)) }
        ensures err { OnErr result ((n : ℕ) × Appends (W.contents writer.old) (W.contents writer.new) (take n self.old.answers.items)
            × (self.new.lines ≡ self.old.lines + line_count (take n self.old.answers.items))) }
        ensures fault { OnErr result (result ≡ Err Fault.Write) }
        ensures lines { self.new.lines ≤ self.old.lines + 2 ^ 64 }
        ensures state { self.new.state ≡ self.old.state }
        ensures line { self.new.line ≡ self.old.line }
    {
        let written = write_all(writer, self.answers.as_slice());
        self.lines += count_lines(&self.answers[..written]) as u128;
        if written < self.answers.len() {
            return Err(Fault::Write);
        }
        self.answers.clear();
        Ok(())
    }

    /// Takes the bytes of one read, and writes the answers to the lines that they end.
    pub(crate) fn step<T: Telling, W: Write>(
        &mut self,
        alloc: Global,
        telling: &T,
        writer: &mut W,
        chunk: &[u8],
    ) -> Result<(), Fault>
        requires { self.old.lines + 2 ^ 64 ≤ 2 ^ 128 }
        ensures ok { OnOk result ((start : A) (read : List ℕ) (held : Option (List ℕ))
            → IsAt (T.tells telling.now) A.commands start read held (W.contents writer.old) self.old → IsAt (T.tells telling.now) A.commands start (read ++ chunk.now) held (W.contents writer.new) self.new) }
        ensures err { OnErr result ((start : A) (read : List ℕ) (held : Option (List ℕ))
            → IsAt (T.tells telling.now) A.commands start read held (W.contents writer.old) self.old
            → IsCutOff (T.tells telling.now) A.commands A.fails start (whole_lines (read ++ chunk.now)) held (W.contents writer.new) self.new.lines self.new.state) }
        ensures fault { IfErr result (CutsOff A.needs_place) }
        ensures none { OnOk result (self.new.answers.items ≡ []) }
        ensures lines { self.new.lines ≤ self.old.lines + 2 ^ 64 }
    {
        let fed = self.feed(alloc, telling, chunk);
        if let Err(fault) = self.flush(writer) {
            return Err(fault);
        }
        fed
    }
}
