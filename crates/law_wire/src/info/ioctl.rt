ghost use Rattle.std.specs.Prelude.{◌≡◌, ◌++◌, ℕ, List, length, None};
ghost use Rattle.spec_wire.specs.messages.Ioctl.{IoctlRequestValue, SpellsIoctlRequest, IsWritableIoctlRequest};
ghost use Rattle.spec_wire.specs.messages.Ioctl.{ioctl_request_fault, ioctl_request_in, ioctl_request_spelling};
ghost use Rattle.spec_wire.specs.messages.Ioctl.{IoctlResponseValue, SpellsIoctlResponse, IsWritableIoctlResponse};
ghost use Rattle.spec_wire.specs.messages.Ioctl.{ioctl_response_fault, ioctl_response_in, ioctl_response_spelling};

/// The laws of the IOCTL request.
pub fn ioctl_request_law()
    ensures one { (m : List ℕ) (v w : IoctlRequestValue) → SpellsIoctlRequest m v → SpellsIoctlRequest m w → v ≡ w }
    ensures whole { (m : List ℕ) (v : IoctlRequestValue) → SpellsIoctlRequest m v → ioctl_request_fault m ≡ None }
    ensures given { (m : List ℕ) → ioctl_request_fault m ≡ None → SpellsIoctlRequest m (ioctl_request_in m) }
    ensures again { (header rest : List ℕ) (v : IoctlRequestValue) → length header ≡ 64 → IsWritableIoctlRequest v
        → SpellsIoctlRequest (header ++ (ioctl_request_spelling v ++ rest)) v }
{}

/// The laws of the IOCTL response.
pub fn ioctl_response_law()
    ensures one { (m : List ℕ) (v w : IoctlResponseValue) → SpellsIoctlResponse m v → SpellsIoctlResponse m w → v ≡ w }
    ensures whole { (m : List ℕ) (v : IoctlResponseValue) → SpellsIoctlResponse m v → ioctl_response_fault m ≡ None }
    ensures given { (m : List ℕ) → ioctl_response_fault m ≡ None → SpellsIoctlResponse m (ioctl_response_in m) }
    ensures again { (header rest : List ℕ) (v : IoctlResponseValue) → length header ≡ 64 → IsWritableIoctlResponse v
        → SpellsIoctlResponse (header ++ (ioctl_response_spelling v ++ rest)) v }
{}
