//! What a put leaves of the files beside it, of permissions, of links and of other names of the file: no clause can say
//! it.
use lzk_outside::{DiskShelf, Shelf};
use std::os::unix::fs::{PermissionsExt, symlink};
use std::test::Fail;
use std::{fs, io};

fn put_new(rt: &HostRuntime, name: &str) -> io::Result<bool> {
    let mut shelf = DiskShelf::new(rt.clone()?, rt.alloc());
    Ok(shelf.put(name, b"new").is_ok())
}

fn holds(rt: &HostRuntime, name: &str, bytes: &[u8]) -> io::Result<bool> {
    Ok(fs::read(rt, name)?.as_slice() == bytes)
}

fn is_link(rt: &HostRuntime, name: &str) -> io::Result<bool> {
    Ok(fs::symlink_metadata(rt, name)?.is_symlink())
}

fn mode_of(rt: &HostRuntime, name: &str) -> io::Result<u32> {
    Ok(fs::symlink_metadata(rt, name)?.permissions().mode() & 0o7777)
}

// An empty folder of this name, whatever an earlier run left.
fn new_folder(rt: &HostRuntime, name: &str) -> io::Result<()> {
    let _removed = fs::remove_dir_all(rt, name);
    fs::create_dir(rt, name)
}

// What lies in the folder before a put of "put_stays/a": files, a link to a file, and a link to nothing.
fn lay_beside(rt: &HostRuntime) -> io::Result<()> {
    new_folder(rt, "put_stays")?;
    fs::write(rt, "put_stays/a", b"old")?;
    fs::write(rt, "put_stays/a.part", b"other")?;
    fs::write(rt, "put_stays/a.0.part", b"other")?;
    symlink(rt, "a.part", "put_stays/a.1.part")?;
    symlink(rt, "nothing", "put_stays/a.2.part")
}

#[test]
fn files_and_links_beside_stay(rt: HostRuntime) -> Result<(), Fail> {
    lay_beside(&rt)?;
    assert!(rt; put_new(&rt, "put_stays/a")?);
    assert!(rt; holds(&rt, "put_stays/a", b"new")? && !is_link(&rt, "put_stays/a")?);
    for name in ["put_stays/a.part", "put_stays/a.0.part"] {
        assert!(rt;
            holds(&rt, name, b"other")? && !is_link(&rt, name)?,
            "{name}"
        );
    }
    for name in ["put_stays/a.1.part", "put_stays/a.2.part"] {
        assert!(rt; is_link(&rt, name)?, "{name}");
    }
    for name in ["put_stays/nothing", "put_stays/a.3.part"] {
        assert!(rt; !fs::exists(&rt, name)?, "{name}");
    }
    fs::remove_dir_all(&rt, "put_stays")?;
    Ok(())
}

// Sets the permissions of a new file "old".
fn write_with_mode(rt: &HostRuntime, name: &str, mode: u32) -> io::Result<()> {
    fs::write(rt, name, b"old")?;
    fs::set_permissions(rt, name, fs::Permissions::from_mode(mode))
}

// A file's mode before a put and behind it.
const MODES: [(u32, u32); 8] = [
    (0o600, 0o600),
    (0o640, 0o640),
    (0o644, 0o644),
    (0o777, 0o777),
    (0o444, 0o444),
    (0o4755, 0o755),
    (0o2775, 0o775),
    (0o1644, 0o644),
];

#[test]
fn permissions_stay_and_another_name_keeps_the_old_bytes(rt: HostRuntime) -> Result<(), Fail> {
    new_folder(&rt, "put_modes")?;
    for (mode, kept) in MODES {
        write_with_mode(&rt, "put_modes/a", mode)?;
        fs::hard_link(&rt, "put_modes/a", "put_modes/b")?;
        assert!(rt; put_new(&rt, "put_modes/a")?);
        assert!(rt; holds(&rt, "put_modes/a", b"new")? && holds(&rt, "put_modes/b", b"old")?);
        assert_eq!(rt; mode_of(&rt, "put_modes/a")?, kept);
        fs::remove_file(&rt, "put_modes/a")?;
        fs::remove_file(&rt, "put_modes/b")?;
    }
    fs::remove_dir(&rt, "put_modes")?;
    Ok(())
}

// Another name of the file that a link leads to keeps the old bytes, so this file was put beside itself.
#[test]
fn link_stays_and_leads_to_the_new_file(rt: HostRuntime) -> Result<(), Fail> {
    new_folder(&rt, "put_link")?;
    fs::create_dir(&rt, "put_link/to")?;
    fs::write(&rt, "put_link/to/b", b"older")?;
    fs::hard_link(&rt, "put_link/to/b", "put_link/c")?;
    symlink(&rt, "to/b", "put_link/next")?;
    symlink(&rt, "next", "put_link/a")?;
    assert!(rt; put_new(&rt, "put_link/a")?);
    assert!(rt; is_link(&rt, "put_link/a")? && is_link(&rt, "put_link/next")?);
    assert!(rt; holds(&rt, "put_link/to/b", b"new")? && !is_link(&rt, "put_link/to/b")?);
    assert!(rt; holds(&rt, "put_link/c", b"older")?);
    fs::remove_dir_all(&rt, "put_link")?;
    Ok(())
}

#[test]
fn link_to_nothing_makes_what_it_leads_to(rt: HostRuntime) -> Result<(), Fail> {
    new_folder(&rt, "put_dangling")?;
    symlink(&rt, "b", "put_dangling/a")?;
    assert!(rt; put_new(&rt, "put_dangling/a")?);
    assert!(rt; is_link(&rt, "put_dangling/a")? && holds(&rt, "put_dangling/b", b"new")?);
    fs::remove_dir_all(&rt, "put_dangling")?;
    Ok(())
}

// What so many killed puts of "put_taken/a" may leave.
fn leave_beside(rt: &HostRuntime, count: u32) -> io::Result<()> {
    new_folder(rt, "put_taken")?;
    fs::write(rt, "put_taken/a", b"old")?;
    for number in 0..count {
        fs::write(
            rt,
            format!(in rt.alloc(); "put_taken/a.{number}.part")?,
            b"other",
        )?;
    }
    Ok(())
}

#[test]
fn files_left_beside_do_not_stop_a_put(rt: HostRuntime) -> Result<(), Fail> {
    leave_beside(&rt, 250)?;
    assert!(rt; put_new(&rt, "put_taken/a")?);
    assert!(rt; holds(&rt, "put_taken/a", b"new")?);
    assert!(rt; holds(&rt, "put_taken/a.249.part", b"other")?);
    assert!(rt; !fs::exists(&rt, "put_taken/a.250.part")?);
    fs::remove_dir_all(&rt, "put_taken")?;
    Ok(())
}

// A name of 250 bytes, so that none is left for a file beside it.
fn long_name(rt: &HostRuntime) -> io::Result<String> {
    Ok(format!(in rt.alloc(); "put_long/{:0>250}", "a")?)
}

#[test]
fn long_name_is_put_in_place(rt: HostRuntime) -> Result<(), Fail> {
    new_folder(&rt, "put_long")?;
    let name = long_name(&rt)?;
    for old in [b"longer than new".as_slice(), b"", b"old"] {
        fs::write(&rt, name.as_str(), old)?;
        fs::hard_link(&rt, name.as_str(), "put_long/b")?;
        assert!(rt; put_new(&rt, &name)?);
        assert!(rt; holds(&rt, &name, b"new")? && holds(&rt, "put_long/b", b"new")?);
        fs::remove_file(&rt, "put_long/b")?;
    }
    fs::remove_dir_all(&rt, "put_long")?;
    Ok(())
}
