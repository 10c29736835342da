//! The links and nodes that fields name.
ghost use Rattle.std.specs.Prelude.{◌≡◌};
ghost use Rattle.net_parts.specs.Numbers.{number_of};
ghost use Rattle.road_net.specs.Network.{IsNetwork};

use road_net::Network;

/// The number of the link with this name, whatever its bytes are; none where no link has it.
///
/// docs/FORMATS.md, "Records".
pub fn link_named(net: &Network, name: &[u8]) -> Option<u32>
    requires { IsNetwork net.now }
    ensures { result ≡ number_of net.now.link_names name.now }
{
    match str::from_utf8(name) {
        Ok(name) => net.find_link(name),
        Err(_) => None,
    }
}

/// The number of the node with this name, whatever its bytes are; none where no node has it.
///
/// docs/FORMATS.md, "Records".
pub fn node_named(net: &Network, name: &[u8]) -> Option<u32>
    requires { IsNetwork net.now }
    ensures { result ≡ number_of net.now.node_names name.now }
{
    match str::from_utf8(name) {
        Ok(name) => net.find_node(name),
        Err(_) => None,
    }
}
