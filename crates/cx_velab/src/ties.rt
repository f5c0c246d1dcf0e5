//! The drivers that connections and assigns give.

ghost use Rattle.std.specs.Prelude.{◌≡◌, ◌+◌, ◌<◌, ◌≤◌, ◌^◌, ℕ, List, Some, length, map, unwrap_or};
ghost use Rattle.cx_vtree.specs.PlainParts.{plain_port, plain_assign, plain_conn};
ghost use Rattle.cx_vnets.specs.Numberings.{nets_by};
ghost use Rattle.cx_velab.specs.Changes.{AreSmall, AreNamed};
ghost use Rattle.cx_velab.specs.Ties.{number_or_0, tied_by, tied_ports, given_nets, AreWithin, ConnsHaveNumbers};

use cx_vnets::{Driver, ModuleNumbers, NetPosition};
use cx_vtree::{Conn, ModulePort, NetAssign};

/// Ties a port and the net that it is connected to.
fn tie(drivers: &mut [Driver], output: bool, port: u32, net: u32)
    requires port { port < length drivers.old }
    requires net { net < length drivers.old }
    ensures { drivers.new ≡ tied_by output port net drivers.old }
{
    if output {
        drivers[net as usize] = Driver::Tied(port);
    } else {
        drivers[port as usize] = Driver::Tied(net);
    }
}

/// Ties the ports of an instance, whose nets begin at `inner`, to nets of the instance around, which begin at `outer`.
pub fn tie_ports(
    drivers: &mut [Driver],
    numbers: &ModuleNumbers<'_>,
    inner: u32,
    outer: u32,
    ports: &[ModulePort],
    conns: &[Conn],
)
    requires same { length ports.now ≡ length conns.now }
    requires named { ConnsHaveNumbers (nets_by numbers.now) (map plain_conn conns.now) }
    requires inner { inner + length ports.now ≤ length drivers.old }
    requires outer { AreWithin (nets_by numbers.now) outer (length drivers.old) }
    requires small { length drivers.old < 2 ^ 32 }
    ensures { drivers.new ≡ tied_ports (nets_by numbers.now) inner outer 0 (map plain_port ports.now)
        (map plain_conn conns.now) drivers.old }
{
    for (k, port) in ports.iter().enumerate() {
        let net = outer + numbers.net(&conns[k].net);
        tie(drivers, port.output, inner + k as u32, net);
    }
}

/// Lets the codes from `first` on drive the nets that their expressions are assigned to.
pub fn give_nets(
    drivers: &mut [Driver],
    numbers: &ModuleNumbers<'_>,
    place: NetPosition,
    first: u32,
    assigns: &[NetAssign],
)
    requires named { AreNamed (nets_by numbers.now) (map plain_assign assigns.now) }
    requires within { AreWithin (nets_by numbers.now) place.nets (length drivers.old) }
    requires small { length drivers.old < 2 ^ 32 }
    requires codes { first + length assigns.now < 2 ^ 32 }
    ensures { drivers.new ≡ given_nets (nets_by numbers.now) place first (map plain_assign assigns.now) drivers.old }
{
    let mut code = first;
    for assign in assigns {
        let net = place.nets + numbers.net(&assign.name);
        drivers[net as usize] = Driver::Given(code, place);
        code += 1;
    }
}
