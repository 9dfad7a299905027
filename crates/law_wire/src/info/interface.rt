ghost use Rattle.std.specs.Prelude.{◌≡◌, ◌++◌, ℕ, List, None};
ghost use Rattle.spec_wire.specs.messages.Interfaces.{SpellsNetworkInterface, IsWritableNetworkInterface};
ghost use Rattle.spec_wire.specs.messages.Interfaces.{network_interface_fault, network_interface_in, network_interface_spelling};
ghost use Rattle.spec_wire.specs.declared.messages.class.NetworkInterface.{NetworkInterface};

/// The laws of the entry of network interfaces.
pub fn network_interface_law()
    ensures one { (m : List ℕ) (v w : NetworkInterface) → SpellsNetworkInterface m v → SpellsNetworkInterface m w → v ≡ w }
    ensures whole { (m : List ℕ) (v : NetworkInterface) → SpellsNetworkInterface m v → network_interface_fault m ≡ None }
    ensures given { (m : List ℕ) → network_interface_fault m ≡ None → SpellsNetworkInterface m (network_interface_in m) }
    ensures again { (rest : List ℕ) (v : NetworkInterface) → IsWritableNetworkInterface v
        → SpellsNetworkInterface (network_interface_spelling v ++ rest) v }
{}
