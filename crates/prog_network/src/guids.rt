// The GUIDs of servers.
ghost use Rattle.std.specs.Prelude.{List, ℕ, MatchOption};
ghost use Rattle.prog_network.specs.Guids.{IsGuid};

use hex::FromHex;

/// The GUID that 24 hexadecimal digits name, of either case. None where the text is anything else.
pub fn read_guid(text: &str) -> Option<[u8; 12]>
    ensures { MatchOption result ((guid : List ℕ) → ¬ (IsGuid text.now guid)) (IsGuid text.now) }
{
    <[u8; 12] as FromHex>::from_hex(text).ok()
}
