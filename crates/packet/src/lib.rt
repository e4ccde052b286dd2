// Document 01, the key of an IPv4 packet (RFC 791), and document 02, U7, that of an IPv6 packet (RFC 8200): the packet is judged first, and only then is
// its key written. What the two versions differ in is trait Version; all else is one text for both.
#![tactic(auto)]

ghost use Rattle.std.specs.Prelude.{◌≡◌, false, List, ℕ, ◌+◌, ◌≤◌, length};
ghost use Rattle.theory.specs.Packet.{cut_in, Keyed, keyed};
ghost use Rattle.memory.specs.Refusals.{number_of, answer_of};
ghost use Rattle.memory.specs.declared.refusals.Refusal.{Refusal};
ghost use Rattle.packet.specs.Judging.{Said, PortsThere, after_header, key_of, reading_of, refusal_of};

use memory::refusals::Refusal;
use ports::read_ports;

pub mod header; // header.rt: what the headers of both versions begin with
pub mod ipv4; // ipv4.rt: what an IPv4 packet says
pub mod ipv6; // ipv6.rt: what an IPv6 packet says
pub mod ports; // ports.rt: which protocols have ports, and where they stand

// A version of the Internet Protocol: what its packets say, and how they are refused.
pub trait Version {
    // Bytes of a key: of two addresses, two ports, the protocol.
    const WIDTH: usize;

    // Bytes of an address.
    const ADDRESS: usize;

    // What a wrong header is refused for.
    const WRONG_HEADER: Refusal;

    ghost WIDTH: { ℕ };

    ghost ADDRESS: { ℕ };

    ghost WRONG_HEADER: { Refusal };

    // Bytes of a header's fixed part, what a packet says, and what its reader is answered.
    ghost fixed: { ℕ };

    ghost said: { List ℕ → Said };

    ghost read: { List ℕ → List ℕ → Keyed };

    fn header_wrong(packet: &[u8]) -> bool
        ensures { result ≡ (said packet.now).header_wrong };

    fn header_length(packet: &[u8]) -> usize
        requires { fixed ≤ length packet.now }
        ensures { result ≡ (said packet.now).header_length };

    fn has_ports(packet: &[u8]) -> bool
        requires { fixed ≤ length packet.now }
        ensures { result ≡ (said packet.now).has_ports };

    fn source(packet: &[u8]) -> &[u8]
        requires { fixed ≤ length packet.now }
        ensures value { result.now ≡ (said packet.now).source }
        ensures long { length result.now ≡ ADDRESS };

    fn destination(packet: &[u8]) -> &[u8]
        requires { fixed ≤ length packet.now }
        ensures value { result.now ≡ (said packet.now).destination }
        ensures long { length result.now ≡ ADDRESS };

    fn protocol(packet: &[u8]) -> u8
        requires { fixed ≤ length packet.now }
        ensures { result ≡ (said packet.now).protocol };

    // What each version shows: the fixed part of a header that is not wrong is there, and the header ends within the packet; a key has two addresses and five
    // bytes more; and its reader is answered by what the packet says.
    ghost fixed_there: { (q : List ℕ) → (said q).header_wrong ≡ false → fixed ≤ length q };

    ghost end_within: { (q : List ℕ) → (said q).header_wrong ≡ false → (said q).header_length ≤ length q };

    ghost width_is: { WIDTH ≡ ADDRESS + ADDRESS + 5 };

    ghost read_is: { (q : List ℕ) (buffer : List ℕ)
        → read q buffer ≡ keyed (reading_of WIDTH (number_of WRONG_HEADER) (said q) q) buffer };
}

// "11, protocol 6 or 17 with under 4 bytes after the header", and no later fragment.
fn ports_cut<V: Version>(packet: &[u8]) -> bool
    requires { (V.said packet.now).header_wrong ≡ false }
    ensures { result ≡ cut_in (V.said packet.now).has_ports (after_header (V.said packet.now) packet.now) }
{
    V::has_ports(packet) & (packet.len() - V::header_length(packet) < 4)
}

// A wrong header, or ports that are cut off.
fn judge<V: Version>(packet: &[u8]) -> Result<(), Refusal>
    ensures { answer_of result
        ≡ refusal_of (reading_of V.WIDTH (number_of V.WRONG_HEADER) (V.said packet.now) packet.now) }
{
    if V::header_wrong(packet) {
        return Err(V::WRONG_HEADER);
    }
    if ports_cut::<V>(packet) {
        return Err(Refusal::PortsCut);
    }
    Ok(())
}

// "Ports come from the part after the header, options skipped": "source address, destination address, source port, destination port, protocol"
fn write_key<V: Version>(packet: &[u8], key: &mut [u8])
    requires right { (V.said packet.now).header_wrong ≡ false }
    requires ports { PortsThere (V.said packet.now).has_ports (after_header (V.said packet.now) packet.now) }
    requires room { length key.old ≡ V.WIDTH }
    ensures { key.new ≡ key_of (V.said packet.now) packet.now }
{
    let addresses = 2 * V::ADDRESS;
    key[..V::ADDRESS].copy_from_slice(V::source(packet));
    key[V::ADDRESS..addresses].copy_from_slice(V::destination(packet));
    let end = V::header_length(packet);
    read_ports(
        &packet[end..],
        V::has_ports(packet),
        &mut key[addresses..addresses + 4],
    );
    key[addresses + 4] = V::protocol(packet);
}

// The key of a packet into a lent buffer: 3, the version's number of a wrong header, 11; else the key. Refused, the buffer is as it was.
pub fn read_packet_key<V: Version>(packet: &[u8], buffer: &mut [u8]) -> Result<(), Refusal>
    ensures { ◌≡◌ {A = Keyed} (record { number = answer_of result; buffer = buffer.new }) (V.read packet.now buffer.old) }
{
    if buffer.len() != V::WIDTH {
        return Err(Refusal::WrongKeyLength);
    }
    judge::<V>(packet)?;
    write_key::<V>(packet, buffer);
    Ok(())
}
