// An IPv4 packet (RFC 791): what its header says, and whether that is wrong. Document 02, U2: the header says whether the packet is a later fragment, which
// has no ports.
ghost use Rattle.std.specs.Prelude.{◌≡◌, ◌≤◌, length};
ghost use Rattle.theory.specs.Settings.{ipv4_width};
ghost use Rattle.theory.specs.Packet as packets;
ghost use Rattle.theory.proofs.PacketLaws as laws;
ghost use Rattle.packet.specs.Versions.{said4, read4_is};
ghost use Rattle.std.proofs.Common.{refl};
ghost use Rattle.memory.specs.declared.refusals.Refusal.TheVariants as refusals;

use super::Version;
use super::header::version;
use super::ports::protocol_has_ports;
use memory::numbers::count_at;
use memory::refusals::Refusal;
use settings::Settings;

#[derive(Clone, Copy)]
pub struct Ipv4;

impl Version for Ipv4 {
    const WIDTH: usize = Settings::IPV4_WIDTH;

    const ADDRESS: usize = 4;

    const WRONG_HEADER: Refusal = Refusal::WrongHeader;

    ghost WIDTH = { ipv4_width };

    ghost ADDRESS = { 4 };

    ghost WRONG_HEADER = { refusals.WrongHeader };

    ghost fixed = { 20 };

    ghost said = { said4 };

    ghost read = { packets.read_packet };

    ghost fixed_there = { laws.fixed_there };

    ghost end_within = { laws.header_within };

    ghost width_is = { refl };

    ghost read_is = { read4_is };

    // "10, under 20 bytes, version not 4, header length under 20 or beyond the packet"
    fn header_wrong(packet: &[u8]) -> bool {
        if packet.len() < 20 {
            return true;
        }
        let end = Self::header_length(packet);
        (version(packet) != 4) | (end < 20) | (packet.len() < end)
    }

    // Counted in words of four bytes.
    fn header_length(packet: &[u8]) -> usize {
        4 * usize::from(packet[0] % 16)
    }

    // "Where the fragment offset .. is not zero, ports are zero and 11 is not given."
    fn has_ports(packet: &[u8]) -> bool {
        (fragment_offset(packet) == 0) & protocol_has_ports(Self::protocol(packet))
    }

    fn source(packet: &[u8]) -> &[u8] {
        &packet[12..16]
    }

    fn destination(packet: &[u8]) -> &[u8] {
        &packet[16..20]
    }

    fn protocol(packet: &[u8]) -> u8 {
        packet[9]
    }
}

// The low 13 bits of bytes 6 and 7, below the flags: zero in a whole packet and in a first fragment.
fn fragment_offset(packet: &[u8]) -> usize
    requires { 20 ≤ length packet.now }
    ensures { result ≡ packets.fragment_offset packet.now }
{
    count_at(&packet[6..8]) % 8192
}
