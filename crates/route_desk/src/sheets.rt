//! The orders `import` and `export`: the tables of a folder, which a spreadsheet reads and writes.

use crate::files::{FileText, fault_of, save_together};
use crate::loading::load_file;
use crate::reasons::write_refused;
use crate::reports::{Done, Teller};
use answers::put_refusal;
use net_data::Net;
use net_saving::save;
use net_sheets::{
    Reason, Sheet, SheetFault, read_sheets, write_network, write_points, write_routes, write_sets,
};
use point_codes::PointCode;
use std::alloc::{AllocError, Global};
use std::io::ErrorKind;
use std::process::ExitCode;
use std::{fs, io};

/// Why the tables of a folder say no network.
#[derive(Drop)]
pub enum FolderFault {
    /// This table can't be read from its file, for what the system says.
    Read(Sheet, io::Error),
    /// Memory was refused.
    OutOfMemory,
    /// What the tables say is wrong.
    Wrong(SheetFault),
}

impl From<SheetFault> for FolderFault {
    fn from(fault: SheetFault) -> FolderFault {
        match fault.reason {
            Reason::OutOfMemory => FolderFault::OutOfMemory,
            _ => FolderFault::Wrong(fault),
        }
    }
}

/// The name of a table's file.
fn file_of(sheet: Sheet) -> &'static str {
    match sheet {
        Sheet::Network => "network.csv",
        Sheet::Points => "points.csv",
        Sheet::Sets => "sets.csv",
        Sheet::Routes => "routes.csv",
    }
}

/// The columns of a table.
fn columns_of(sheet: Sheet) -> &'static str {
    match sheet {
        Sheet::Network => "key,value",
        Sheet::Points => "code,kind,mate",
        Sheet::Sets => "id,a,b,links",
        Sheet::Routes => "destination,point,class,via",
    }
}

/// The name of a table's file in a folder.
fn path_of(alloc: Global, dir: &str, sheet: Sheet) -> Result<String, AllocError> {
    let file = file_of(sheet);
    format!(in alloc; "{dir}/{file}")
}

/// The bytes of a table's file.
fn read_sheet(rt: &HostRuntime, dir: &str, sheet: Sheet) -> Result<Vec<u8>, FolderFault> {
    let Ok(path) = path_of(rt.alloc(), dir, sheet) else {
        return Err(FolderFault::OutOfMemory);
    };
    match fs::read(rt, path.as_str()) {
        Ok(bytes) => Ok(bytes),
        Err(error) if error.kind() == ErrorKind::OutOfMemory => Err(FolderFault::OutOfMemory),
        Err(error) => Err(FolderFault::Read(sheet, error)),
    }
}

/// Whether the file of a table isn't there.
fn is_missing(fault: &FolderFault) -> bool {
    match fault {
        FolderFault::Read(_, error) => error.kind() == ErrorKind::NotFound,
        _ => false,
    }
}

/// The bytes of the network's own table, none if its file isn't there.
fn read_network(rt: &HostRuntime, dir: &str) -> Result<Option<Vec<u8>>, FolderFault> {
    match read_sheet(rt, dir, Sheet::Network) {
        Ok(bytes) => Ok(Some(bytes)),
        Err(fault) if is_missing(&fault) => Ok(None),
        Err(fault) => Err(fault),
    }
}

/// The network that the tables of a folder say.
fn read_folder(rt: &HostRuntime, dir: &str) -> Result<Net, FolderFault> {
    let network = read_network(rt, dir)?;
    let points = read_sheet(rt, dir, Sheet::Points)?;
    let sets = read_sheet(rt, dir, Sheet::Sets)?;
    let routes = read_sheet(rt, dir, Sheet::Routes)?;
    match read_sheets(
        rt.alloc(),
        network.as_ref().map(|bytes| bytes.as_slice()),
        points.as_slice(),
        sets.as_slice(),
        routes.as_slice(),
    ) {
        Ok(net) => Ok(net),
        Err(fault) => Err(fault.into()),
    }
}

/// The text of a table of a network, with the ranks of its rows if they are wanted.
fn write_sheet(alloc: Global, net: &Net, sheet: Sheet, ranks: bool) -> Result<String, AllocError> {
    match sheet {
        Sheet::Network => write_network(alloc, net, ranks),
        Sheet::Points => write_points(alloc, net),
        Sheet::Sets => write_sets(alloc, net),
        Sheet::Routes => write_routes(alloc, net),
    }
}

/// The tables of a network with the names of their files in a folder.
fn texts_of(alloc: Global, net: &Net, dir: &str, ranks: bool) -> Result<Vec<FileText>, AllocError> {
    let mut texts = Vec::new(alloc);
    for sheet in [Sheet::Network, Sheet::Points, Sheet::Sets, Sheet::Routes] {
        let name = path_of(alloc, dir, sheet)?;
        let text = write_sheet(alloc, net, sheet, ranks)?;
        texts.push(FileText { name, text })?;
    }
    Ok(texts)
}

/// Writes the network of a file as the tables of a folder, all of them or none, with the ranks of its rows if they are wanted.
pub fn export(teller: Teller<'_>, net: &str, dir: &str, ranks: bool) -> Done {
    let net = load_file(teller, net)?;
    let texts = texts_of(teller.alloc(), &net, dir, ranks)?;
    match save_together(teller.rt, texts.as_slice()) {
        Ok(()) => Ok(ExitCode::SUCCESS),
        Err(fault) => {
            if let Some(text) = texts.get(fault.place) {
                teller.explain_file(text.name.as_str(), &fault.error);
            }
            Err(fault_of(&fault.error).into())
        }
    }
}

/// Adds the points of a loop.
fn put_loop(alloc: Global, text: &mut String, points: &[PointCode]) -> Result<(), AllocError> {
    text.push_str("the routes go round:")?;
    for point in points {
        text.push(' ')?;
        point.put_text(alloc, text)?;
    }
    Ok(())
}

/// Adds that two mates lead to each other.
fn put_mates(
    alloc: Global,
    text: &mut String,
    one: PointCode,
    other: PointCode,
) -> Result<(), AllocError> {
    put_loop(alloc, text, &[one, other])?;
    text.push_str(", which are mates; for the way over the mate there is the class mate")
}

/// The name of a column, by its place from 1.
fn column_at(sheet: Sheet, place: u8) -> &'static str {
    let mut left = place;
    for name in columns_of(sheet).split(',') {
        left = left.saturating_sub(1);
        if left == 0 {
            return name;
        }
    }
    ""
}

/// Adds that a column can't be read, by its place from 1; of a class, of which there are few, what it may be.
fn put_column(text: &mut String, sheet: Sheet, place: u8) -> Result<(), AllocError> {
    let column = column_at(sheet, place);
    text.push_str("the column ")?;
    text.push_str(column)?;
    if column != "class" {
        return text.push_str(" can't be read");
    }
    text.push_str(" has to be ")?;
    text.push_str(field_form(column))
}

/// What a reason says that needs no values.
fn sentence_of(reason: &Reason) -> &'static str {
    match reason {
        Reason::Csv => "no CSV, or not as many fields as columns",
        Reason::FifthClass =>
            "answers write class 5 for the way over the mate; in a table its class is mate",
        Reason::Keys =>
            "the keys have to be ni, then tfr, then plan for each plan without rows, and then rank for each row or for none",
        Reason::Indicator => "the network indicator has to be 0 to 3",
        Reason::PlanThere => "this plan without rows stands further up",
        Reason::PlanBare => "network.csv says that the plan of this destination has no rows",
        Reason::RankOrder =>
            "the ranks have to be those of all rows of all plans, by rising destination and point",
        Reason::ThirdVia => "a class has one or two vias, and this is a third",
        Reason::SplitDestination => "the routes of this destination don't stand together",
        Reason::SplitPoint => "the routes of this point to the destination don't stand together",
        Reason::ClassOrder => "the classes of a point go up one by one from 1, and mate comes last",
        Reason::TooDeep => "a route is longer than 255 ranks",
        _ => "1 OutOfMemory",
    }
}

/// Adds what is wrong at a place of a table.
fn put_reason(
    alloc: Global,
    text: &mut String,
    sheet: Sheet,
    reason: &Reason,
) -> Result<(), AllocError> {
    match reason {
        Reason::Columns => {
            text.push_str("the columns have to be ")?;
            text.push_str(columns_of(sheet))
        }
        Reason::Field(place) => put_column(text, sheet, *place),
        Reason::Refused(refusal) => put_refusal(alloc, text, refusal),
        Reason::MateLoop(one, other) => put_mates(alloc, text, *one, *other),
        Reason::Loop(points) => put_loop(alloc, text, points.as_slice()),
        reason => text.push_str(sentence_of(reason)),
    }
}

/// Why the tables of a folder say no network, with the file, the line and the column.
pub fn describe(alloc: Global, fault: &FolderFault) -> Result<String, AllocError> {
    match fault {
        FolderFault::Read(sheet, _) => {
            let file = file_of(*sheet);
            format!(in alloc; "63 Read {file}")
        }
        FolderFault::OutOfMemory => String::from_str(alloc, "1 OutOfMemory"),
        FolderFault::Wrong(fault) => {
            let (file, line, column) = (file_of(fault.sheet), fault.line, fault.column);
            let mut text = format!(in alloc; "{file} line {line}, column {column}: ")?;
            put_reason(alloc, &mut text, fault.sheet, &fault.reason)?;
            Ok(text)
        }
    }
}

/// What a field has to be, by the name of its column.
fn field_form(column: &str) -> &'static str {
    match column {
        "key" => "ni, tfr, plan or rank",
        "value" =>
            "a number for ni, true or false for tfr, a code for plan, as 2-1-1, and two codes and a number to 255 for rank, as 2-1-1 2-10-1 3",
        "kind" => "sep or stp",
        "mate" => "a code, as 2-10-2, or nothing",
        "id" => "a number from 0 to 4095",
        "links" => "link codes with their marks between single spaces, as 0 1f",
        "class" => "1 to 4, or mate",
        "via" => "a code, as 2-10-1, or nothing for the class mate",
        _ => "a code, as 2-1-1",
    }
}

/// What to do where a reason is told, beyond what it says.
fn advice_of(reason: &Reason) -> &'static str {
    match reason {
        Reason::Csv =>
            "; write as many fields as the header has, none of them with a comma but in quotes, and close each quote",
        Reason::Columns =>
            "; write this header in small letters, with commas between and no other column",
        Reason::FifthClass => "; write mate in the column class, and leave the column via empty",
        Reason::Keys =>
            "; write ni and tfr once each, in this order, behind them plan, and behind that rank",
        Reason::PlanThere => "; take it away",
        Reason::PlanBare => "; take it away here, or there",
        Reason::RankOrder =>
            "; take all records of rank away, and each row gets its least rank, or have export --ranks write them anew",
        Reason::ThirdVia => "; give it the next class, or leave it out",
        Reason::SplitDestination =>
            "; move this record up to the others of its destination, or sort the table by destination",
        Reason::SplitPoint => "; move this record up to the others of its destination and point",
        Reason::ClassOrder =>
            "; add the class that is left out, or sort the records of this destination and point by class",
        Reason::MateLoop(_, _) =>
            "; write a record of the class mate, without a via, for each of the two, in place of the one that leads to the other",
        Reason::Loop(_) =>
            "; take away one of the vias by which each of these points leads to the next",
        Reason::TooDeep => "; take away vias until no route passes more than 255 points",
        _ => "",
    }
}

/// What is wrong at a place of a table, and what to do.
fn write_wrong(alloc: Global, fault: &SheetFault) -> Result<String, AllocError> {
    match &fault.reason {
        Reason::Refused(refusal) => write_refused(alloc, refusal),
        Reason::Field(place) => {
            let column = column_at(fault.sheet, *place);
            let form = field_form(column);
            format!(in alloc; "the column {column} has to be {form}")
        }
        reason => {
            let mut text = String::new(alloc);
            put_reason(alloc, &mut text, fault.sheet, reason)?;
            text.push_str(advice_of(reason))?;
            Ok(text)
        }
    }
}

/// What is wrong at a place of a table, and where, behind the name of its file.
fn write_place(alloc: Global, fault: &SheetFault) -> Result<String, AllocError> {
    let (line, column) = (fault.line, fault.column);
    let wrong = write_wrong(alloc, fault)?;
    let wrong = wrong.as_str();
    format!(in alloc; ": line {line}, column {column}: {wrong}")
}

/// Says why the tables of a folder say no network: the system's reason, or what is wrong at which place, and what to do.
fn explain_folder(teller: Teller<'_>, dir: &str, fault: &FolderFault) -> Result<(), AllocError> {
    let alloc = teller.alloc();
    match fault {
        FolderFault::OutOfMemory => {}
        FolderFault::Read(sheet, error) => {
            let path = path_of(alloc, dir, *sheet)?;
            teller.explain_file(path.as_str(), error);
        }
        FolderFault::Wrong(fault) => {
            let path = path_of(alloc, dir, fault.sheet)?;
            let wrong = write_place(alloc, fault)?;
            teller.say(&[path.as_str(), wrong.as_str()]);
        }
    }
    Ok(())
}

/// Writes the text of the network that the tables of a folder say, or what is wrong with them.
pub fn import(teller: Teller<'_>, dir: &str) -> Done {
    match read_folder(teller.rt, dir) {
        Ok(net) => teller.tell(save(teller.alloc(), &net)),
        Err(fault) => {
            if teller.explained {
                // where there is no memory for the reason, it isn't said
                let _ = explain_folder(teller, dir, &fault);
            }
            Err(fault.into())
        }
    }
}
