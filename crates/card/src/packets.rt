// The doors that read a packet.
ghost use Rattle.std.specs.Prelude.{◌≡◌};
ghost use Rattle.theory.specs.Packet.{Keyed, read_packet};
ghost use Rattle.theory.specs.Packet6.{read_packet6};

use memory::refusals::answer_number;
use packet::ipv4::Ipv4;
use packet::ipv6::Ipv6;
use packet::read_packet_key;

// The key of an IPv4 packet: 3 if `key` is not of 13 bytes; 10; 11; else the key.
#[unsafe(no_mangle)]
pub extern "C" fn flow_packet_key(packet: &[u8], key: &mut [u8]) -> u32
    ensures { ◌≡◌ {A = Keyed} (record { number = result; buffer = key.new }) (read_packet packet.now key.old) }
{
    answer_number(read_packet_key::<Ipv4>(packet, key))
}

// The key of an IPv6 packet: 3 if `key` is not of 37 bytes; 16; 11; else the key.
#[unsafe(no_mangle)]
pub extern "C" fn flow_packet6_key(packet: &[u8], key: &mut [u8]) -> u32
    ensures { ◌≡◌ {A = Keyed} (record { number = result; buffer = key.new }) (read_packet6 packet.now key.old) }
{
    answer_number(read_packet_key::<Ipv6>(packet, key))
}
