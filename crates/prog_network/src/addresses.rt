// Addresses of the form A.B.C.D:PORT.
ghost use Rattle.std.specs.Prelude.{◌≡◌, ℕ, List, MatchOption};
ghost use Rattle.prog_network.specs.Addresses.{BeginsWith, IsAddress, IsMark};
ghost use Rattle.pva_outside.specs.declared.peer.Peer.{Peer as PeerSaid};

use prog_source::count_within;
use pva_outside::Peer;

/// The number of 0 to 255 that stands before the first of these marks, and what stands behind it.
#[tactic(auto, using(crate::proofs::Reading::uncut, crate::proofs::Reading::no_number, crate::proofs::Reading::begins_so))]
fn byte_before(text: &str, mark: char) -> Option<(u8, &str)>
    requires { IsMark mark }
    ensures { MatchOption result ((n : ℕ) (rest : List ℕ) → ¬ (BeginsWith text.now mark n rest)) (λ p. BeginsWith text.now mark p.0 p.1.now) }
{
    let Some((front, rest)) = text.split_once(mark) else {
        return None;
    };
    let Some(number) = count_within(front, 0, 255) else {
        return None;
    };
    Some((number as u8, rest))
}

/// The address and port that a text of the form A.B.C.D:PORT names (each of A to D is 0 to 255, PORT is 0 to 65,535; all are decimal digits
/// without a zero in front). None where it isn't of this form.
#[tactic(auto, using(crate::proofs::Reading::no_first, crate::proofs::Reading::no_second, crate::proofs::Reading::no_third, crate::proofs::Reading::no_fourth, crate::proofs::Reading::no_port, crate::proofs::Reading::is_address))]
pub fn read_address(text: &str) -> Option<Peer>
    ensures { MatchOption result ((p : PeerSaid) → ¬ (IsAddress text.now p)) (IsAddress text.now) }
{
    let Some((a, text)) = byte_before(text, '.') else {
        return None;
    };
    let Some((b, text)) = byte_before(text, '.') else {
        return None;
    };
    let Some((c, text)) = byte_before(text, '.') else {
        return None;
    };
    let Some((d, text)) = byte_before(text, ':') else {
        return None;
    };
    let Some(port) = count_within(text, 0, 65_535) else {
        return None;
    };
    Some(Peer {
        address: [0, 0, 0, 0, 0, 0, 0, 0, 0, 0, 0xFF, 0xFF, a, b, c, d],
        port: port as u16,
    })
}
