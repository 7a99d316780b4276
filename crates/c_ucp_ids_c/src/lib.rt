// The calls of `c_ucp_ids` as symbols for C and Rust. scripts/exports writes these files.
#![tactic(auto)]

ghost use Rattle.std.specs.Prelude.{◌≡◌};
ghost use Rattle.c_ucp_ids.specs.Ids.{id_due};

use c_ucp_ids::OstrogoszId;

// The ID of a body's kind, or 10: no octet, or an unknown ID. Nothing behind the first octet is looked at.
#[unsafe(no_mangle)]
pub extern "C" fn ostrogosz_ucp_read_id(body: &[u8]) -> OstrogoszId
    ensures { result ≡ id_due body.now }
{
    c_ucp_ids::ostrogosz_ucp_read_id(body)
}
