// Message 66, a request for a data stream.
ghost use Rattle.std.specs.Prelude.{◌≡◌, length};
ghost use Rattle.field_format.specs.Format.{body_of, value_in};
ghost use Rattle.mavlink_messages.specs.DataStream66.{data_stream_format};

use super::DataStream;

pub fn read(payload: &[u8]) -> DataStream
    requires { length payload.now ≡ 6 }
    ensures { result ≡ value_in data_stream_format payload.now }
{
    DataStream {
        req_message_rate: field_layout::little_16(payload, 0),
        target_system: field_layout::octet(payload, 2),
        target_component: field_layout::octet(payload, 3),
        req_stream_id: field_layout::octet(payload, 4),
        start_stop: field_layout::octet(payload, 5),
    }
}

pub fn octets(data_stream: DataStream) -> [u8; 6]
    ensures { result ≡ body_of data_stream_format data_stream }
{
    let mut octets = [0; 6];
    octets[0..2].copy_from_slice(&data_stream.req_message_rate.to_le_bytes());
    octets[2] = data_stream.target_system;
    octets[3] = data_stream.target_component;
    octets[4] = data_stream.req_stream_id;
    octets[5] = data_stream.start_stop;
    octets
}
