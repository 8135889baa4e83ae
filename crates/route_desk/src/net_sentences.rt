//! Sentences about a network: what an event or a question names and it doesn't have, and what is wrong with a row.

use explanations::explain_cause;
use net_data::{Event, Net};
use net_items::lookups::{find_point, position_of_set};
use net_items::{LinkSet, Plan};
use plan_rows::Cause;
use point_codes::PointCode;
use script_words::Show;
use std::alloc::{AllocError, Global};

/// That a question is about what isn't published yet.
const NOT_PUBLISHED: &str = "what was taken isn't published yet: use sync first";

/// The set of an id.
pub fn set_of(net: &Net, id: u16) -> Option<&LinkSet> {
    net.validity();
    match position_of_set(net.sets(), id) {
        Ok(at) => Some(&net.sets()[at]),
        Err(_) => None,
    }
}

/// Whether the plan of a destination has a row of a point.
fn has_row(net: &Net, point: PointCode, dest: PointCode) -> bool {
    net.validity();
    match net.plans().find(dest) {
        Some(plan) => plan.rows.codes().contains(&point),
        None => false,
    }
}

/// A sentence about a network, as far as it is written.
#[derive(Drop)]
pub struct NetSentence<'a> {
    /// Where its memory comes from.
    pub alloc: Global,
    /// The network.
    pub net: &'a Net,
    text: String,
}

impl<'a> NetSentence<'a> {
    /// An empty sentence.
    pub fn new(alloc: Global, net: &'a Net) -> NetSentence<'a> {
        NetSentence {
            alloc,
            net,
            text: String::new(alloc),
        }
    }

    /// The whole text.
    pub fn into_text(self) -> String {
        let NetSentence { text, .. } = self;
        text
    }

    /// Adds words.
    pub fn put(&mut self, words: &str) -> Result<(), AllocError> {
        self.text.push_str(words)
    }

    /// Adds words and a code behind them.
    pub fn put_about(&mut self, words: &str, code: PointCode) -> Result<(), AllocError> {
        self.text.push_str(words)?;
        code.put_text(self.alloc, &mut self.text)
    }

    /// Adds that a point isn't in the network, if it isn't, and says whether it did.
    fn put_if_missing(&mut self, code: PointCode) -> Result<bool, AllocError> {
        let net = self.net;
        net.validity();
        if find_point(net.points(), code).is_some() {
            return Ok(false);
        }
        self.put_about("there is no point ", code)?;
        Ok(true)
    }

    /// Adds the first of two points that isn't in the network.
    fn put_first_missing(&mut self, one: PointCode, other: PointCode) -> Result<(), AllocError> {
        if !self.put_if_missing(one)? {
            self.put_if_missing(other)?;
        }
        Ok(())
    }

    /// Adds the first point of a plan's rows that isn't in the network, the destination before them.
    fn put_missing_in_plan(&mut self, plan: &Plan) -> Result<(), AllocError> {
        if self.put_if_missing(plan.dest)? {
            return Ok(());
        }
        for code in plan.rows.codes() {
            if self.put_if_missing(*code)? {
                return Ok(());
            }
        }
        Ok(())
    }

    /// Adds the first point that an event names and the network doesn't have.
    pub fn put_missing_point(&mut self, event: &Event) -> Result<(), AllocError> {
        match event {
            Event::AddSet(_, one, other, _) | Event::Pair(one, other) => {
                self.put_first_missing(*one, *other)
            }
            Event::RemovePoint(code) | Event::Unpair(code) => self.put_first_missing(*code, *code),
            Event::SetPlan(plan) => self.put_missing_in_plan(plan.as_plan()),
            _ => Ok(()),
        }
    }

    /// Adds that the network doesn't have a set, and which ids it has: `there is no set 9; the ids are 1 to 6`.
    pub fn put_missing_set(&mut self, id: u16) -> Result<(), AllocError> {
        if set_of(self.net, id).is_some() {
            return Ok(());
        }
        let sentence = match self.net.sets() {
            [first, .., last] => {
                let (first, last) = (first.id, last.id);
                format!(in self.alloc; "there is no set {id}; the ids are {first} to {last}")?
            }
            _ => format!(in self.alloc; "there is no set {id}")?,
        };
        self.put(sentence.as_str())
    }

    /// Adds that the network has no plan of a destination, if it has none, and says whether it did.
    pub fn put_missing_plan(&mut self, dest: PointCode) -> Result<bool, AllocError> {
        let net = self.net;
        net.validity();
        if net.plans().has(dest) {
            return Ok(false);
        }
        self.put_about("there is no plan of ", dest)?;
        Ok(true)
    }

    /// Adds what a question about a point and a destination finds missing: the plan, or the row, or that it isn't published yet.
    pub fn put_missing_row(&mut self, point: PointCode, dest: PointCode) -> Result<(), AllocError> {
        if self.put_missing_plan(dest)? {
            return Ok(());
        }
        if has_row(self.net, point, dest) {
            return self.put(NOT_PUBLISHED);
        }
        self.put_about("the plan of ", dest)?;
        self.put_about(" has no row of ", point)
    }

    /// Adds what the network lacks of what is to be shown of it; nothing if it has that.
    pub fn put_lacking(&mut self, what: Show) -> Result<(), AllocError> {
        match what {
            Show::Set(id) => self.put_missing_set(id)?,
            Show::Point(code) => {
                self.put_if_missing(code)?;
            }
            Show::Plan(dest) | Show::Statuses(dest) => {
                self.put_missing_plan(dest)?;
            }
            Show::Size | Show::Down => {}
        }
        Ok(())
    }

    /// Adds what is to be shown of the network that isn't in it, or that it isn't published yet.
    pub fn put_missing_shown(&mut self, what: Show) -> Result<(), AllocError> {
        self.put_lacking(what)?;
        if self.text.is_empty() {
            return self.put(NOT_PUBLISHED);
        }
        Ok(())
    }

    /// Adds what is wrong with the row of a point.
    pub fn put_bad_row(&mut self, point: PointCode, cause: Cause) -> Result<(), AllocError> {
        self.put_about("the row of ", point)?;
        self.put(" can't be in that plan. ")?;
        self.put(explain_cause(cause).meaning)
    }
}
