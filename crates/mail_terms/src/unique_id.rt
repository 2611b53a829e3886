//! Unique-ids as a server may give them (RFC 1939, section 7, UIDL).

ghost use Rattle.std.specs.{Prelude.{◌≡◌, ◌↔◌, ℕ, List}, List.list_all};
ghost use Rattle.mail_terms.specs.UniqueId.{is_id_byte, is_legal_id, IsLegalId, HasIdRanges};

/// Whether all bytes are characters of a unique-id.
fn are_id_bytes(bytes: &[u8]) -> bool
    ensures { result ≡ list_all is_id_byte bytes.now }
{
    bytes.iter().all(|byte| 0x21 <= *byte && *byte <= 0x7E)
}

/// Whether a unique-id is legal: 1 to 70 characters of 0x21 to 0x7E.
pub fn is_legal_id(id: &[u8]) -> bool
    ensures { result ≡ is_legal_id id.now }
{
    if id.is_empty() || id.len() > 70 {
        return false;
    }
    are_id_bytes(id)
}

/// A legal unique-id is 1 to 70 characters long, and each is of 0x21 to 0x7E.
pub fn legal_ids_have_ranges()
    ensures { (id : List ℕ) → IsLegalId id → HasIdRanges id }
{}
