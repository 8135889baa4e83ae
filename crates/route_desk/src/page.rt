//! A page of HTML as it grows. It has no script, and needs no file beside it.

use point_codes::PointCode;
use std::alloc::{AllocError, Global};

/// How the page looks on a screen, on a phone and on paper. A picture keeps its size on a phone, where it is moved sideways, and that of
/// a large network everywhere but on paper.
const STYLE: &str =
    "body { font: 16px/1.5 Helvetica, Arial, sans-serif; color: #111111; background: #ffffff; max-width: 75rem; margin: 0 auto; padding: 1rem }
h1, h2 { line-height: 1.25 }
table { border-collapse: collapse; margin: 0.5rem 0 }
caption { text-align: left; font-weight: bold; padding: 0.5rem 0 }
th, td { border-bottom: 1px solid #999999; padding: 0.2rem 1rem 0.2rem 0; text-align: left; vertical-align: top }
.n { text-align: right }
.wide { overflow-x: auto }
.wide svg { display: block; width: 100%; min-width: 56rem; height: auto }
.large svg { min-width: 400rem }
summary { cursor: pointer; padding: 0.2rem 0 }
footer { border-top: 1px solid #999999; margin-top: 2rem; font-size: 0.85rem }
@media print { body { font-size: 10pt; max-width: none } .wide svg, .large svg { min-width: 0 } h2, caption { break-after: avoid } tr, svg { break-inside: avoid } }
";

/// A page as far as it is written.
#[derive(Drop)]
pub struct Page {
    /// Where its memory comes from.
    pub alloc: Global,
    text: String,
}

impl Page {
    /// An empty page.
    pub fn new(alloc: Global) -> Page {
        Page {
            alloc,
            text: String::new(alloc),
        }
    }

    /// The whole text.
    pub fn into_text(self) -> String {
        let Page { text, .. } = self;
        text
    }

    /// Adds markup.
    pub fn put(&mut self, markup: &str) -> Result<(), AllocError> {
        self.text.push_str(markup)
    }

    /// Adds words: what HTML reserves is written as a reference.
    pub fn put_words(&mut self, words: &str) -> Result<(), AllocError> {
        for letter in words.chars() {
            match letter {
                '&' => self.text.push_str("&amp;")?,
                '<' => self.text.push_str("&lt;")?,
                '>' => self.text.push_str("&gt;")?,
                '"' => self.text.push_str("&quot;")?,
                _ => self.text.push(letter)?,
            }
        }
        Ok(())
    }

    /// Adds words between the marks of an element.
    pub fn put_element(&mut self, begin: &str, words: &str, end: &str) -> Result<(), AllocError> {
        self.put(begin)?;
        self.put_words(words)?;
        self.put(end)
    }

    /// Adds a heading of a section.
    pub fn put_heading(&mut self, words: &str) -> Result<(), AllocError> {
        self.put_element("<h2>", words, "</h2>\n")
    }

    /// Adds a paragraph.
    pub fn put_paragraph(&mut self, words: &str) -> Result<(), AllocError> {
        self.put_element("<p>", words, "</p>\n")
    }

    /// Begins a table with these heads, as markup.
    pub fn begin_table(&mut self, heads: &str) -> Result<(), AllocError> {
        self.put("<div class=\"wide\"><table>\n")?;
        self.put(heads)
    }

    /// Ends a table.
    pub fn end_table(&mut self) -> Result<(), AllocError> {
        self.put("</table></div>\n")
    }

    /// Adds a cell with words.
    pub fn put_cell(&mut self, words: &str) -> Result<(), AllocError> {
        self.put_element("<td>", words, "</td>")
    }

    /// Adds a cell with the code of a point.
    pub fn put_code_cell(&mut self, code: PointCode) -> Result<(), AllocError> {
        let words = format!(in self.alloc; "{code}")?;
        self.put_cell(words.as_str())
    }

    /// Adds a cell with a number.
    pub fn put_number_cell(&mut self, number: usize) -> Result<(), AllocError> {
        let digits = format!(in self.alloc; "{number}")?;
        self.put_element("<td class=\"n\">", digits.as_str(), "</td>")
    }

    /// Begins the page of a title.
    pub fn begin(&mut self, title: &str) -> Result<(), AllocError> {
        self.put("<!DOCTYPE html>\n<html lang=\"en\">\n<head>\n<meta charset=\"utf-8\">\n")?;
        self.put_element(
            "<meta name=\"viewport\" content=\"width=device-width, initial-scale=1\">\n<title>",
            title,
            "</title>\n<style>\n",
        )?;
        self.put(STYLE)?;
        self.put_element("</style>\n</head>\n<body>\n<h1>", title, "</h1>\n")
    }

    /// Ends the page.
    pub fn end(&mut self) -> Result<(), AllocError> {
        self.put_element(
            "<footer><p>",
            "Written by route_desk from the network text alone. The numbers are those that the words show, statuses, survey and warn of a script tell.",
            "</p></footer>\n</body>\n</html>\n",
        )
    }
}
