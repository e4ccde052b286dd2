// Ports, of any packet: the part after a header starts with source port and destination port, two bytes each.
ghost use Rattle.std.specs.Prelude.{◌≡◌, length};
ghost use Rattle.theory.specs.Packet.{protocol_has_ports, ports_in};
ghost use Rattle.packet.specs.Judging.{PortsThere};

// Protocols 6 and 17.
pub fn protocol_has_ports(protocol: u8) -> bool
    ensures { result ≡ protocol_has_ports protocol }
{
    (protocol == 6) | (protocol == 17)
}

// Both ports of the part after a header; "for others they are zero".
pub fn read_ports(after: &[u8], has: bool, to: &mut [u8])
    requires there { PortsThere has after.now }
    requires room { length to.old ≡ 4 }
    ensures { to.new ≡ ports_in has after.now }
{
    if has {
        to.copy_from_slice(&after[..4]);
    } else {
        to.fill(0);
    }
}
