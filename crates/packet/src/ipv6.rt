// An IPv6 packet (RFC 8200): what its header says, and whether that is wrong. "The payload length is not read".
ghost use Rattle.theory.specs.Settings.{ipv6_width};
ghost use Rattle.theory.specs.Packet6 as packets6;
ghost use Rattle.theory.proofs.PacketLaws as laws;
ghost use Rattle.packet.specs.Versions.{said6, read6_is};
ghost use Rattle.std.proofs.Common.{refl};
ghost use Rattle.memory.specs.declared.refusals.Refusal.TheVariants as refusals;

use super::Version;
use super::header::version;
use super::ports::protocol_has_ports;
use memory::refusals::Refusal;
use settings::Settings;

#[derive(Clone, Copy)]
pub struct Ipv6;

impl Version for Ipv6 {
    const WIDTH: usize = Settings::IPV6_WIDTH;

    const ADDRESS: usize = 16;

    const WRONG_HEADER: Refusal = Refusal::WrongIpv6Header;

    ghost WIDTH = { ipv6_width };

    ghost ADDRESS = { 16 };

    ghost WRONG_HEADER = { refusals.WrongIpv6Header };

    ghost fixed = { 40 };

    ghost said = { said6 };

    ghost read = { packets6.read_packet6 };

    ghost fixed_there = { laws.header6_there };

    ghost end_within = { laws.header6_there };

    ghost width_is = { refl };

    ghost read_is = { read6_is };

    // "16, under 40 bytes or version not 6"
    fn header_wrong(packet: &[u8]) -> bool {
        if packet.len() < 40 {
            return true;
        }
        version(packet) != 6
    }

    // No extension header is skipped: it is the next header, which has no ports.
    fn header_length(_packet: &[u8]) -> usize {
        40
    }

    // "Another next header, extension headers (0, 43, 44, 50, 51, 60, ..) included, has zero ports"
    fn has_ports(packet: &[u8]) -> bool {
        let next = Self::protocol(packet);
        protocol_has_ports(next)
    }

    // "source address (bytes 8 to 23)"
    fn source(packet: &[u8]) -> &[u8] {
        &packet[8..24]
    }

    // "destination address (24 to 39)"
    fn destination(packet: &[u8]) -> &[u8] {
        &packet[24..40]
    }

    // "next header (byte 6)"
    fn protocol(packet: &[u8]) -> u8 {
        packet[6]
    }
}
