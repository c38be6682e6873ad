//! A store over real files, and one in which the input is a file.

use host_io::{FileStore, InputStore, Outage, ReadFiles, SureSource, WriteFiles};
use std::fs;
use std::test::Fail;

#[test]
fn a_file_that_is_written_is_read_back_and_one_that_is_missing_fails(
    rt: HostRuntime,
) -> Result<(), Fail> {
    let mut store = FileStore::new(&rt);
    let name = "file_store_test.txt";
    for text in ["a longer text", "some text"] {
        assert_eq!(rt; store.write(name, text.as_bytes()), Ok(()));
    }
    let mut buffer = [b'.'; 6];
    for (place, answer, text) in [(0, 6, "some t"), (6, 3, "exte t"), (9, 0, "exte t")] {
        assert_eq!(rt; store.read_at(name, place, &mut buffer), Ok(answer));
        assert_eq!(rt; buffer.as_slice(), text.as_bytes());
    }
    fs::remove_file(&rt, name)?;
    assert_eq!(rt; store.read_at(name, 0, &mut buffer), Err(Outage::Failed));
    assert_eq!(rt; store.write("", b"some text"), Err(Outage::Failed));
    Ok(())
}

#[test]
fn an_input_is_read_as_a_file_from_any_place_on_and_is_not_written(
    rt: HostRuntime,
) -> Result<(), Fail> {
    let alloc = rt.alloc();
    let input = SureSource::new(Vec::from_slice(alloc, b"some text")?);
    let mut store = InputStore::new(alloc, FileStore::new(&rt), input);
    let mut buffer = [b'.'; 6];
    for (place, answer, text) in [
        (0, 6, "some t"),
        (6, 3, "exte t"),
        (9, 0, "exte t"),
        (3, 6, "e text"),
    ] {
        assert_eq!(rt; store.read_at("-", place, &mut buffer), Ok(answer));
        assert_eq!(rt; buffer.as_slice(), text.as_bytes());
    }
    assert_eq!(rt; store.write("-", b"other"), Err(Outage::Failed));
    assert_eq!(rt;
        store.read_at("no such file", 0, &mut buffer),
        Err(Outage::Failed)
    );
    let name = "input_store_test.txt";
    assert_eq!(rt; store.write(name, b"a file"), Ok(()));
    assert_eq!(rt; store.read_at(name, 2, &mut buffer), Ok(4));
    assert_eq!(rt; buffer.as_slice(), b"filext".as_slice());
    fs::remove_file(&rt, name)?;
    Ok(())
}
