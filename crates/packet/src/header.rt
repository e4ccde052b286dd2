// What the headers of IPv4 and of IPv6 begin with.
ghost use Rattle.std.specs.Prelude.{◌≡◌, ◌≤◌, length};
ghost use Rattle.theory.specs.Packet as packets;

// The high four bits of the first byte.
pub fn version(packet: &[u8]) -> u8
    requires { 1 ≤ length packet.now }
    ensures { result ≡ packets.version packet.now }
{
    packet[0] / 16
}
