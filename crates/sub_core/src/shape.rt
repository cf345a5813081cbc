//! The forms of objects.

ghost use Rattle.std.specs.Prelude.{◌≡◌, ◌<◌, ◌^◌};
ghost use Rattle.sub_core.specs.Forms.{object_len};

/// What the bytes of an object have behind the index of its door. The four forms are this project's own.
#[derive(Clone, Copy, Debug, PartialEq, Eq)]
pub enum Form {
    /// Nothing.
    Bare,
    /// The tag, a number of four bytes.
    Tagged,
    /// The name of a manager, `vmm`, as a string: its length in four bytes, and its bytes.
    Managed,
    /// A path, as a string.
    Pathed,
}

/// How many bytes an object of the form and the name has.
pub fn object_len(form: Form, name: &str) -> u32
    requires { object_len form name.now < 2 ^ 32 }
    ensures { result ≡ object_len form name.now }
{
    match form {
        Form::Bare => 6,
        Form::Tagged => 10,
        Form::Managed | Form::Pathed => 10 + name.len() as u32,
    }
}
