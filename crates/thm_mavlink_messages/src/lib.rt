// What holds of MAVLink's reader and writers together, and worked examples: stated in specs/, proved in proofs/. The functions do
// nothing: their contracts say that every message that a program holds meets what the theorems ask of it.
#![tactic(auto)]

ghost use Rattle.field_format.specs.Format.{TypedAs};
ghost use Rattle.mavlink_messages.specs.DataStream66.{data_stream_format};
ghost use Rattle.mavlink_messages.specs.Static201.{static_format};
ghost use Rattle.mavlink_messages.specs.Dynamic202.{dynamic_format};
ghost use Rattle.mavlink_messages.specs.Status203.{status_format};
ghost use Rattle.mavlink_messages.specs.Traffic246.{traffic_format};
ghost use Rattle.thm_mavlink_messages.specs.RoundTrips.{MavlinkTyped};

use mavlink_messages::{DataStream, Dynamic, Message, Static, Status, Traffic};

// ---- one kind

fn data_stream_typed(data_stream: DataStream)
    ensures { TypedAs data_stream_format data_stream }
{}

fn static_typed(static_data: Static)
    ensures { TypedAs static_format static_data }
{}

#[tactic(auto, unfolding(field_signed::specs::Signed::holds))]
fn dynamic_typed(dynamic: Dynamic)
    ensures { TypedAs dynamic_format dynamic }
{}

fn status_typed(status: Status)
    ensures { TypedAs status_format status }
{}

#[tactic(auto, unfolding(field_signed::specs::Signed::holds))]
fn traffic_typed(traffic: Traffic)
    ensures { TypedAs traffic_format traffic }
{}

// Every message is a value of its type.
pub fn typed(message: Message)
    ensures { MavlinkTyped message }
{
    match message {
        Message::DataStream(data_stream) => data_stream_typed(data_stream),
        Message::Static(static_data) => static_typed(static_data),
        Message::Dynamic(dynamic) => dynamic_typed(dynamic),
        Message::Status(status) => status_typed(status),
        Message::Traffic(traffic) => traffic_typed(traffic),
    }
}
