//! A network from the texts of its tables.

ghost use Rattle.std.specs.Prelude.{◌≡◌, ◌<◌, true, option_map, OnOk, IfOk, IfErr};
ghost use Rattle.net_sets.specs.Sets.{is_distinct};
ghost use Rattle.net_sheets.specs.About.{IsAbout};
ghost use Rattle.net_sheets.specs.Events.{empty_net, AddsPoints, AddsSets, AddsRoutes, AddsAll, Says};
ghost use Rattle.net_sheets.specs.Faults.{IsPointsFault, IsSetsFault, IsRoutesTextFault, IsAddingFault, IsFaultOf};

use crate::about::{About, read_about};
use crate::bare::add_bare;
use crate::building::{add_points, add_sets, pair_points};
use crate::faults::{Reason, Sheet, SheetFault, SpotFault};
use crate::given::give_ranks;
use crate::places::{place_of, start_of_text};
use crate::plans::add_plans;
use crate::records::read_table;
use crate::values::{read_points, read_routes, read_sets};
use net_data::{Event, Net};
use point_codes::PointCode;
use std::alloc::Global;

/// Adds the points of a table and their mated pairs.
fn add_points_of(alloc: Global, net: &mut Net, text: &[u8]) -> Result<(), SpotFault>
    ensures ok { OnOk result (AddsPoints net.old text.now net.new) }
    ensures err { IfErr result (λ fault. IsPointsFault net.old text.now fault.reason) }
{
    let header = [b"code".as_slice(), b"kind".as_slice(), b"mate".as_slice()];
    let table = read_table(alloc, text, &header)?;
    let records = &table[1..];
    let points = read_points(alloc, records)?;
    add_points(alloc, net, records, points.as_slice())?;
    pair_points(alloc, net, records, points.as_slice())
}

/// Adds the sets of a table.
fn add_sets_of(alloc: Global, net: &mut Net, text: &[u8]) -> Result<(), SpotFault>
    ensures ok { OnOk result (AddsSets net.old text.now net.new) }
    ensures err { IfErr result (λ fault. IsSetsFault net.old text.now fault.reason) }
{
    let header = [
        b"id".as_slice(),
        b"a".as_slice(),
        b"b".as_slice(),
        b"links".as_slice(),
    ];
    let table = read_table(alloc, text, &header)?;
    let records = &table[1..];
    let sets = read_sets(alloc, records)?;
    add_sets(alloc, net, records, sets.as_slice())
}

/// Adds the plans of a table of routes. There are plans of these destinations, which have no rows.
fn add_routes_of(
    alloc: Global,
    net: &mut Net,
    bare: Vec<PointCode>,
    text: &[u8],
) -> Result<(), SpotFault>
    requires { is_distinct bare.items ≡ true }
    ensures ok { OnOk result (AddsRoutes net.old bare.items text.now net.new) }
    ensures err { IfErr result (λ fault. IsRoutesTextFault net.old bare.items text.now fault.reason) }
{
    let header = [
        b"destination".as_slice(),
        b"point".as_slice(),
        b"class".as_slice(),
        b"via".as_slice(),
    ];
    let table = read_table(alloc, text, &header)?;
    let records = &table[1..];
    let routes = read_routes(alloc, records)?;
    add_plans(alloc, net, bare, records, routes.as_slice())
}

/// A fault of a table with this text.
fn on_sheet(sheet: Sheet, text: &[u8], fault: SpotFault) -> SheetFault
    ensures sheet { result.sheet ≡ sheet }
    ensures reason { result.reason ≡ fault.reason }
{
    let place = place_of(text, fault.spot);
    SheetFault {
        sheet,
        line: place.line,
        column: place.column,
        reason: fault.reason,
    }
}

/// A fault of the table of a network, which may have none.
fn on_network(text: Option<&[u8]>, fault: SpotFault) -> SheetFault
    ensures sheet { result.sheet ≡ Sheet.Network }
    ensures reason { result.reason ≡ fault.reason }
{
    match text {
        Some(text) => on_sheet(Sheet::Network, text, fault),
        None => on_sheet(Sheet::Network, &[], fault),
    }
}

/// The empty network with its network indicator and its option.
fn start(alloc: Global, ni: u8, tfr: bool) -> Result<Net, SpotFault>
    requires { ni < 4 }
    ensures ok { IfOk result (λ net. net ≡ empty_net ni tfr) }
    ensures err { IfErr result (λ fault. fault.reason ≡ Reason.OutOfMemory) }
{
    let mut net = Net::empty(alloc, ni);
    match net.apply(alloc, &Event::SetTfr(tfr)) {
        Ok(()) => Ok(net),
        Err(_) => Err(SpotFault {
            spot: start_of_text(),
            reason: Reason::OutOfMemory,
        }),
    }
}

/// Adds what the tables of points and of sets say, then plans without rows, then what the table of routes says.
fn add_all(
    alloc: Global,
    net: &mut Net,
    network: Option<&[u8]>,
    points: &[u8],
    sets: &[u8],
    routes: &[u8],
    bare: Vec<PointCode>,
) -> Result<(), SheetFault>
    ensures ok { OnOk result (AddsAll net.old points.now sets.now bare.items routes.now net.new) }
    ensures err { IfErr result (λ fault. IsAddingFault net.old points.now sets.now bare.items routes.now fault.sheet fault.reason) }
{
    if let Err(fault) = add_points_of(alloc, net, points) {
        return Err(on_sheet(Sheet::Points, points, fault));
    }
    if let Err(fault) = add_sets_of(alloc, net, sets) {
        return Err(on_sheet(Sheet::Sets, sets, fault));
    }
    if let Err(fault) = add_bare(alloc, net, network, bare.as_slice()) {
        return Err(on_network(network, fault));
    }
    if let Err(fault) = add_routes_of(alloc, net, bare, routes) {
        return Err(on_sheet(Sheet::Routes, routes, fault));
    }
    Ok(())
}

/// The network of these texts, by what its own table says.
fn read_by(
    alloc: Global,
    network: Option<&[u8]>,
    points: &[u8],
    sets: &[u8],
    routes: &[u8],
    about: About,
) -> Result<Net, SheetFault>
    requires small { about.ni < 4 }
    requires told { IsAbout (option_map (λ t. t.now) network) about.ni about.tfr about.bare.items about.ranks.items }
    ensures ok { IfOk result (λ net. Says (option_map (λ t. t.now) network.entry) points.now sets.now routes.now net) }
    ensures err { IfErr result (λ fault. IsFaultOf (option_map (λ t. t.now) network.entry) points.now sets.now routes.now fault.sheet fault.reason) }
{
    let About {
        ni,
        tfr,
        bare,
        ranks,
    } = about;
    let count = bare.len();
    let mut net = match start(alloc, ni, tfr) {
        Ok(net) => net,
        Err(fault) => return Err(on_network(network, fault)),
    };
    add_all(alloc, &mut net, network, points, sets, routes, bare)?;
    match give_ranks(alloc, &mut net, network, count, ranks.as_slice()) {
        Ok(()) => Ok(net),
        Err(fault) => Err(on_network(network, fault)),
    }
}

/// The network that the texts of its tables say: its own, points, sets and routes. Where it has none of its own, it is national, has
/// the option of transfer-restricted messages, and no plan without rows. The rows of its plans have the ranks that its own table
/// tells, and the least ones if that tells none. The error is the first thing that is wrong, in the order network, points, sets, plans
/// without rows, routes, ranks.
pub fn read_sheets(
    alloc: Global,
    network: Option<&[u8]>,
    points: &[u8],
    sets: &[u8],
    routes: &[u8],
) -> Result<Net, SheetFault>
    ensures ok { IfOk result (λ net. Says (option_map (λ t. t.now) network.entry) points.now sets.now routes.now net) }
    ensures err { IfErr result (λ fault. IsFaultOf (option_map (λ t. t.now) network.entry) points.now sets.now routes.now fault.sheet fault.reason) }
{
    match read_about(alloc, network) {
        Ok(about) => read_by(alloc, network, points, sets, routes, about),
        Err(fault) => Err(on_network(network, fault)),
    }
}
