//! Tests of a real file.
use disk_trait::Disk;
use real_outside::FileOutside;
use std::fs::{self, Permissions};
use std::os::unix::fs::PermissionsExt;
use std::test::Fail;

#[test]
fn a_file_is_made_at_the_first_call_and_keeps_what_is_written(rt: HostRuntime) -> Result<(), Fail> {
    let name = "made_by_a_test.bin";
    let mut out = FileOutside::at(rt, String::from_str(rt.alloc(), name)?);
    assert!(rt; !fs::exists(&rt, name)?);
    let mut bytes = [9; 4];
    assert!(rt; out.read(2, &mut bytes).is_ok());
    assert_eq!(rt; bytes, [0, 0, 0, 0]);
    assert!(rt; out.write(3, &[7, 8]).is_ok() && out.sync().is_ok());
    assert!(rt; out.read(2, &mut bytes).is_ok());
    assert_eq!(rt; bytes, [0, 7, 8, 0]);
    assert_eq!(rt; fs::read(&rt, name)?.as_slice(), [0, 0, 0, 7, 8].as_slice());
    fs::remove_file(&rt, name)?;
    Ok(())
}

#[test]
fn a_file_is_open_once_at_a_time(rt: HostRuntime) -> Result<(), Fail> {
    let name = "locked_by_a_test.bin";
    let mut first = FileOutside::at(rt, String::from_str(rt.alloc(), name)?);
    let mut second = FileOutside::at(rt, String::from_str(rt.alloc(), name)?);
    assert!(rt; first.write(0, &[1]).is_ok());
    assert!(rt; second.write(0, &[2]).is_err());
    drop(first);
    assert!(rt; second.write(0, &[2]).is_ok());
    fs::remove_file(&rt, name)?;
    Ok(())
}

#[test]
fn a_file_that_is_only_read_is_not_made(rt: HostRuntime) -> Result<(), Fail> {
    let name = "not_made_by_a_test.bin";
    let mut out = FileOutside::reading(rt, String::from_str(rt.alloc(), name)?);
    assert!(rt; out.read(0, &mut [0; 4]).is_err());
    assert!(rt; !fs::exists(&rt, name)?);
    Ok(())
}

#[test]
fn a_file_that_nobody_may_write_is_read(rt: HostRuntime) -> Result<(), Fail> {
    let name = "kept_by_a_test.bin";
    fs::write(&rt, name, &[7, 8])?;
    fs::set_permissions(&rt, name, Permissions::from_mode(0o444))?;
    let mut out = FileOutside::reading(rt, String::from_str(rt.alloc(), name)?);
    let mut bytes = [9; 4];
    assert!(rt; out.read(0, &mut bytes).is_ok());
    assert_eq!(rt; bytes, [7, 8, 0, 0]);
    assert!(rt; out.write(0, &[1]).is_err() && out.sync().is_err());
    assert_eq!(rt; fs::read(&rt, name)?.as_slice(), [7, 8].as_slice());
    fs::remove_file(&rt, name)?;
    Ok(())
}

#[test]
fn two_may_read_a_file_which_none_writes_meanwhile(rt: HostRuntime) -> Result<(), Fail> {
    let name = "shared_by_a_test.bin";
    fs::write(&rt, name, &[7])?;
    let mut first = FileOutside::reading(rt, String::from_str(rt.alloc(), name)?);
    let mut second = FileOutside::reading(rt, String::from_str(rt.alloc(), name)?);
    let mut writer = FileOutside::at(rt, String::from_str(rt.alloc(), name)?);
    assert!(rt; first.read(0, &mut [0]).is_ok() && second.read(0, &mut [0]).is_ok());
    assert!(rt; writer.write(0, &[1]).is_err());
    drop(first);
    drop(second);
    assert!(rt; writer.write(0, &[1]).is_ok());
    let mut third = FileOutside::reading(rt, String::from_str(rt.alloc(), name)?);
    assert!(rt; third.read(0, &mut [0]).is_err());
    fs::remove_file(&rt, name)?;
    Ok(())
}
