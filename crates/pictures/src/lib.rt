//! A network as a picture.
//!
//! 1. A picture shows the points and the link sets of a network and, if it is asked about a destination, how each point leads its
//!    traffic there (own).
//! 2. A set is drawn plain if all its links are available, dashed if some are, and grey if none is (own, after Q.704 clause 3.2).
//! 3. A point has the colour of its status towards the destination (Q.704 clauses 13.2 to 13.4); the destination has a colour of its
//!    own, and a point without a row is white (own).
//! 4. A set over which a point leads traffic to the destination is bold, with an arrow the way that it goes, and its label says how
//!    many of the sixteen signalling link selections go that way (own, after Q.704 clause 2.3).
//! 5. Mated transfer points stand side by side, and end points by the pair that they are joined to (own, after Q.705).
//! 6. A line goes by points that it doesn't join, and a label stands beside points and other labels, where a clear curve and a clear
//!    spot are found (own).
//! 7. The title names the network, the destination and the version (own).
//! 8. The text is in the language DOT, for Graphviz, or an SVG document of its own (own).
//!
//! Stands on `transfer_state`. A change here also changes specs/ (Curves, Dot, Labels, Laws, Layout, Shown, Svg, Title), proofs/,
//! must-fail/ and wrong-bodies/; a change of what is told of a version also changes `desk_console` and what its specs/Asked says.
#![tactic(auto)]

mod curves;
mod dot;
mod drawn;
mod faults;
mod frame;
mod keys;
mod labels;
mod laws;
mod page;
mod places;
mod shares;
mod shown;
mod stands;
mod styles;
mod svg;
mod title;
mod tries;

pub use dot::write_dot;
pub use faults::PictureFault;
pub use laws::picture_law;
pub use svg::write_svg;
