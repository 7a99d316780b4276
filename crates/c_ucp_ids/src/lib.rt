// The ID of a body, for C: by it a caller chooses the kind's reader.
#![tactic(auto)]

ghost use Rattle.std.specs.Prelude.{◌≡◌};
ghost use Rattle.c_ucp_ids.specs.Ids.{id_due, ucp_id_numbers};

use refusals::Refusal;

// The ID of a body, or why it has none.
// Stays: numbers side by side. It is the struct of the C header, and C has no `Result`.
#[repr(C)]
#[derive(Clone, Copy)]
pub struct OstrogoszId {
    // 0, or the refusal's number.
    pub refusal: u32,
    // The ID; 0 on a refusal.
    pub id: u32,
}

fn read(body: &[u8]) -> Result<u8, Refusal>
    ensures { ucp_id_numbers result ≡ id_due body.now }
{
    if body.len() == 0 {
        return Err(Refusal::UnknownId);
    }
    let id = body[0];
    if !ucp_messages::is_known(ucp_messages::kind_of(id)) {
        return Err(Refusal::UnknownId);
    }
    Ok(id)
}

// The ID of a body's kind, or 10: no octet, or an unknown ID. Nothing behind the first octet is looked at.
pub fn ostrogosz_ucp_read_id(body: &[u8]) -> OstrogoszId
    ensures { result ≡ id_due body.now }
{
    match read(body) {
        Ok(id) => OstrogoszId {
            refusal: 0,
            id: id as u32,
        },
        Err(refusal) => OstrogoszId {
            refusal: refusal.number() as u32,
            id: 0,
        },
    }
}
