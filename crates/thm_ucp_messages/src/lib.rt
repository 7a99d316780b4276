// Theorems: a written message reads back equal, and an accepted body writes back to the same octets. The functions do nothing: their
// contracts say that every message that a program holds meets what the theorems ask of it.
#![tactic(auto)]

ghost use Rattle.field_format.specs.Format.{TypedAs};
ghost use Rattle.ucp_messages.specs.Heartbeat0.{heartbeat_format};
ghost use Rattle.ucp_messages.specs.Report10.{report_format};
ghost use Rattle.ucp_messages.specs.GeometricAltitude11.{geometric_format};
ghost use Rattle.ucp_messages.specs.Request44.{request_format};
ghost use Rattle.ucp_messages.specs.Control45.{control_format};
ghost use Rattle.ucp_messages.specs.Initialization117.{initialization_format};
ghost use Rattle.thm_ucp_messages.specs.Typed.{MessageTyped};

use ucp_messages::{
    Control, GeometricAltitude, Heartbeat, Initialization, Message, Report, Request,
};

// ---- one kind

fn heartbeat_typed(heartbeat: Heartbeat)
    ensures { TypedAs heartbeat_format heartbeat }
{}

#[tactic(auto, unfolding(field_signed::specs::Signed::holds))]
fn report_typed(report: Report)
    ensures { TypedAs (report_format 10) report }
{}

#[tactic(auto, unfolding(field_signed::specs::Signed::holds))]
fn geometric_typed(geometric: GeometricAltitude)
    ensures { TypedAs geometric_format geometric }
{}

fn request_typed(request: Request)
    ensures { TypedAs request_format request }
{}

#[tactic(auto, unfolding(field_signed::specs::Signed::holds))]
fn control_typed(control: Control)
    ensures { TypedAs control_format control }
{}

fn initialization_typed(initialization: Initialization)
    ensures { TypedAs initialization_format initialization }
{}

// Every message is a value of its type. The two reports' formats differ in the ID alone.
pub fn typed(message: Message)
    ensures { MessageTyped message }
{
    match message {
        Message::Heartbeat(heartbeat) => heartbeat_typed(heartbeat),
        Message::Uplink => (),
        Message::Ownship(report) => report_typed(report),
        Message::GeometricAltitude(geometric) => geometric_typed(geometric),
        Message::Traffic(report) => report_typed(report),
        Message::Request(request) => request_typed(request),
        Message::Control(control) => control_typed(control),
        Message::Initialization(initialization) => initialization_typed(initialization),
    }
}
