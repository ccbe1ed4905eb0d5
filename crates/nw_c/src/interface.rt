//! The version of the library and the number of its interface.
ghost use Rattle.std.specs.Prelude.{◌≡◌, pos};
ghost use Rattle.nw_c.specs.Interface.{interface, version};

/// Returns the version of the library: 10,000 times the first number, 100 times the second, and the third. `NW_VERSION_NUMBER` is the
/// version of the header.
#[unsafe(no_mangle)]
pub extern "C" fn nw_version() -> i32
    ensures { result ≡ pos version }
{
    200
}

/// Returns `NW_ABI`, the number of this interface. The number is in the name too, and changes with each change of an export, a struct or
/// a code. So a program that calls this function links only with a library of the same interface.
#[unsafe(no_mangle)]
pub extern "C" fn nw_interface_7() -> i32
    ensures { result ≡ pos interface }
{
    7
}
