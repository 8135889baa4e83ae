//! A law: a function that does nothing when it runs, and whose contract is a fact about the definitions.

ghost use Rattle.pictures.specs.Laws.{PointsShow, SetsShow};

/// The law: what a picture about a destination draws is what the profile says of the network from scratch.
///
/// - `points`: the colour of each point is its status towards the destination; the destination has a colour of its own, and a point
///   without a row is white.
/// - `sets`: the style of each set is the availability of its links, and the shares of its label are the numbers of signalling link
///   selections whose carrier is the other end.
///
/// It does nothing when it runs. The texts of `write_dot` and `write_svg` are prints of what is drawn so.
pub fn picture_law()
    ensures points { PointsShow }
    ensures sets { SetsShow }
{}
