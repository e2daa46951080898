//! Tests names in scope, of which one is hidden by another and found again.
ghost use Rattle.std.specs.Prelude.{◌≡◌, OnErr};

use rpl_scope::Scope;
use rw_base::NoMemory;
use std::alloc::Global;
use std::test::Fail;

// Adds a name. Where there is no memory for it, the names are those that were there.
fn add<'a>(scope: &mut Scope<'a, u8>, name: &'a [u8], means: u8) -> Result<(), NoMemory>
    ensures { OnErr result (scope.new ≡ scope.old) }
{
    scope.push(name, means)
}

// Whether a name is found again that another one hid, which is taken away.
fn is_found_again(alloc: Global) -> Result<bool, NoMemory> {
    let mut scope = Scope::new(alloc);
    add(&mut scope, b"first", 1)?;
    add(&mut scope, b"second", 2)?;
    add(&mut scope, b"second", 3)?;
    let inner = scope.find(b"second");
    scope.pop();
    Ok(inner == Some(3) && scope.find(b"second") == Some(2) && scope.find(b"first") == Some(1))
}

#[test]
fn a_hidden_name_is_found_again(rt: HostRuntime) -> Result<(), Fail> {
    assert!(rt; is_found_again(rt.alloc())?);
    Ok(())
}
