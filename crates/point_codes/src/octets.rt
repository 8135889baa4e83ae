//! The octets of the transfer messages.

ghost use Rattle.std.specs.Prelude.{◌≡◌, ◌<◌};
ghost use Rattle.point_codes.specs.Octets.{h1_of, label as label_of, octets_of};

use crate::codes::PointCode;
use crate::kinds::MsgKind;

/// The heading code H0 of the transfer messages (Q.704 clause 15.3).
const H0: u8 = 4;

/// The heading code H1 of a transfer message (Q.704 clauses 15.7 to 15.9).
fn h1(kind: MsgKind) -> u8
    ensures { result ≡ h1_of kind }
{
    match kind {
        MsgKind::Tfp => 1,
        MsgKind::Tfr => 3,
        MsgKind::Tfa => 5,
    }
}

/// The routing label, with signalling link code 0 (Q.704 clauses 2.2 and 15.2).
fn label(to: PointCode, from: PointCode) -> u32
    ensures { result ≡ label_of to from }
{
    u32::from(to.number()) + u32::from(from.number()) * 16384
}

/// The octets of a transfer message about the point `about`, in the order in which they are sent (Q.704 clauses 14.2,
/// 15.2 and 15.7 to 15.9): the service information octet with the network indicator `ni`, which has to be below 4; four
/// octets of the routing label, low octet first; the heading; two octets of the code of `about`, low octet first.
pub fn tfm_octets(
    ni: u8,
    to: PointCode,
    from: PointCode,
    kind: MsgKind,
    about: PointCode,
) -> [u8; 8]
    requires { ni < 4 }
    ensures { result ≡ octets_of ni to from kind about }
{
    let service_information = ni * 64;
    let [l0, l1, l2, l3] = label(to, from).to_le_bytes();
    let heading = h1(kind) * 16 + H0;
    let [a0, a1] = about.number().to_le_bytes();
    [service_information, l0, l1, l2, l3, heading, a0, a1]
}
