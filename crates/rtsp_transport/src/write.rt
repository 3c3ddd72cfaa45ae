//! The Transport header of a response.

ghost use Rattle.std.specs.Prelude.{◌≡◌, ◌≤◌, ◌++◌, vec_capacity, IsOk, OnOk, OnErr};
ghost use Rattle.rtsp_text.specs.Appending.{HasRoom};
ghost use Rattle.rtsp_text.specs.Hexadecimal.{hex_text};
ghost use Rattle.rtsp_transport.specs.Granted.{udp_from_text, mux_from_text, transport_text};

use itoa::Buffer;
use rtsp_text::{append_all, hex_digits_u32, write_hex_u32};
use std::alloc::AllocError;

/// The transport that a client was granted.
#[derive(Clone, Copy, PartialEq, Eq)]
pub enum Granted {
    /// RTP and RTCP over UDP, to the client's ports and from the server's: RTP's, and the next for
    /// RTCP.
    Udp {
        client_rtp: u16,
        client_rtcp: u16,
        server_rtp: u16,
        ssrc: u32,
    },
    /// RTP and RTCP over UDP, to the client's one port and from the server's one (RFC 5761).
    Mux {
        client: u16,
        server: u16,
        ssrc: u32,
    },
    /// As `Udp`, where the packets come from another IPv4 address than the client connected to.
    UdpFrom {
        client_rtp: u16,
        client_rtcp: u16,
        host: u32,
        server_rtp: u16,
        ssrc: u32,
    },
    /// As `Mux`, where the packets come from another IPv4 address than the client connected to.
    MuxFrom {
        client: u16,
        host: u32,
        server: u16,
        ssrc: u32,
    },
    /// Over the connection: RTP on this channel, which is even, and RTCP on the next.
    Inter {
        channel: u8,
        ssrc: u32,
    },
}

/// Writes an SSRC at the end, as 8 hexadecimal digits. A refused write leaves `out` as it was.
pub fn write_ssrc(out: &mut Vec<u8>, ssrc: u32) -> Result<(), AllocError>
    ensures ok { OnOk result (out.new.items ≡ out.old.items ++ hex_text 8 ssrc) }
    ensures err { OnErr result (out.new.items ≡ out.old.items) }
    ensures capacity { vec_capacity out.old ≤ vec_capacity out.new }
    // It takes no memory where there is room.
    ensures succeeds { HasRoom out.old (hex_text 8 ssrc) → IsOk result }
{
    write_hex_u32(out, ssrc)
}

// The value over UDP, from this host.
fn write_udp_from(
    out: &mut Vec<u8>,
    client_rtp: u16,
    client_rtcp: u16,
    host: u32,
    server_rtp: u16,
    ssrc: u32,
) -> Result<(), AllocError>
    ensures ok { OnOk result (out.new.items ≡ out.old.items ++ udp_from_text client_rtp client_rtcp host server_rtp ssrc) }
    ensures err { OnErr result (out.new.items ≡ out.old.items) }
    ensures capacity { vec_capacity out.old ≤ vec_capacity out.new }
    ensures succeeds { HasRoom out.old (udp_from_text client_rtp client_rtcp host server_rtp ssrc) → IsOk result }
{
    let (mut a, mut b) = (Buffer::new(), Buffer::new());
    let (mut c, mut d) = (Buffer::new(), Buffer::new());
    let first = a.format(host / 0x0100_0000).as_bytes();
    let second = b.format(host / 0x0001_0000 % 256).as_bytes();
    let third = c.format(host / 0x0000_0100 % 256).as_bytes();
    let fourth = d.format(host % 256).as_bytes();
    append_all(
        out,
        &[
            b"RTP/AVP;unicast;dest_addr=\":",
            Buffer::new().format(client_rtp).as_bytes(),
            b"\"/\":",
            Buffer::new().format(client_rtcp).as_bytes(),
            b"\";src_addr=\"",
            first,
            b".",
            second,
            b".",
            third,
            b".",
            fourth,
            b":",
            Buffer::new().format(server_rtp).as_bytes(),
            b"\"/\"",
            first,
            b".",
            second,
            b".",
            third,
            b".",
            fourth,
            b":",
            Buffer::new().format(u32::from(server_rtp) + 1).as_bytes(),
            b"\";ssrc=",
            &hex_digits_u32(ssrc),
        ],
    )
}

// The value over UDP with RTP and RTCP on one port, from this host.
fn write_mux_from(
    out: &mut Vec<u8>,
    client: u16,
    host: u32,
    server: u16,
    ssrc: u32,
) -> Result<(), AllocError>
    ensures ok { OnOk result (out.new.items ≡ out.old.items ++ mux_from_text client host server ssrc) }
    ensures err { OnErr result (out.new.items ≡ out.old.items) }
    ensures capacity { vec_capacity out.old ≤ vec_capacity out.new }
    ensures succeeds { HasRoom out.old (mux_from_text client host server ssrc) → IsOk result }
{
    append_all(
        out,
        &[
            b"RTP/AVP;unicast;dest_addr=\":",
            Buffer::new().format(client).as_bytes(),
            b"\";src_addr=\"",
            Buffer::new().format(host / 0x0100_0000).as_bytes(),
            b".",
            Buffer::new().format(host / 0x0001_0000 % 256).as_bytes(),
            b".",
            Buffer::new().format(host / 0x0000_0100 % 256).as_bytes(),
            b".",
            Buffer::new().format(host % 256).as_bytes(),
            b":",
            Buffer::new().format(server).as_bytes(),
            b"\";RTCP-mux;ssrc=",
            &hex_digits_u32(ssrc),
        ],
    )
}

/// Writes the value of a response's Transport header at the end (RFC 7826 section 18.54). A refused
/// write leaves `out` as it was.
pub fn write_transport(out: &mut Vec<u8>, granted: &Granted) -> Result<(), AllocError>
    ensures ok { OnOk result (out.new.items ≡ out.old.items ++ transport_text granted.now) }
    ensures err { OnErr result (out.new.items ≡ out.old.items) }
    ensures capacity { vec_capacity out.old ≤ vec_capacity out.new }
    // It takes no memory where there is room.
    ensures succeeds { HasRoom out.old (transport_text granted.now) → IsOk result }
{
    match *granted {
        Granted::Udp {
            client_rtp,
            client_rtcp,
            server_rtp,
            ssrc,
        } => append_all(
            out,
            &[
                b"RTP/AVP;unicast;dest_addr=\":",
                Buffer::new().format(client_rtp).as_bytes(),
                b"\"/\":",
                Buffer::new().format(client_rtcp).as_bytes(),
                b"\";src_addr=\":",
                Buffer::new().format(server_rtp).as_bytes(),
                b"\"/\":",
                Buffer::new().format(u32::from(server_rtp) + 1).as_bytes(),
                b"\";ssrc=",
                &hex_digits_u32(ssrc),
            ],
        ),
        Granted::Mux {
            client,
            server,
            ssrc,
        } => append_all(
            out,
            &[
                b"RTP/AVP;unicast;dest_addr=\":",
                Buffer::new().format(client).as_bytes(),
                b"\";src_addr=\":",
                Buffer::new().format(server).as_bytes(),
                b"\";RTCP-mux;ssrc=",
                &hex_digits_u32(ssrc),
            ],
        ),
        Granted::UdpFrom {
            client_rtp,
            client_rtcp,
            host,
            server_rtp,
            ssrc,
        } => write_udp_from(out, client_rtp, client_rtcp, host, server_rtp, ssrc),
        Granted::MuxFrom {
            client,
            host,
            server,
            ssrc,
        } => write_mux_from(out, client, host, server, ssrc),
        Granted::Inter { channel, ssrc } => append_all(
            out,
            &[
                b"RTP/AVP/TCP;unicast;interleaved=",
                Buffer::new().format(channel).as_bytes(),
                b"-",
                Buffer::new().format(u16::from(channel) + 1).as_bytes(),
                b";ssrc=",
                &hex_digits_u32(ssrc),
            ],
        ),
    }
}
