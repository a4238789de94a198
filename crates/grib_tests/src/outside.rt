//! Each object of the outside once, through its trait.

use grib_io::{
    CalmSink, CalmSource, Failed, FileShelf, MemoryShelf, MemorySink, MemorySource, ReadSource,
    Shelf, ShelfStop, Sink, Source, Stop, WriteSink,
};
use std::fs;
use std::io::{self, Read, Write};
use std::test::Fail;

/// A read of three octets at most.
fn read_three<S: Source>(source: &mut S) -> (Result<usize, Failed>, [u8; 3]) {
    let mut into = [0; 3];
    let answer = source.read(&mut into);
    (answer, into)
}

fn write_to<T: Sink>(sink: &mut T, piece: &[u8]) -> Result<usize, Stop> {
    sink.write(piece)
}

fn finish<T: Sink>(sink: &mut T) -> Result<(), Stop> {
    sink.finish()
}

/// A read of two octets at most from an offset of a name on.
fn read_two<H: Shelf>(
    shelf: &mut H,
    name: &str,
    offset: u64,
) -> (Result<usize, ShelfStop>, [u8; 2]) {
    let mut into = [0; 2];
    let answer = shelf.read_at(name, offset, &mut into);
    (answer, into)
}

fn make<H: Shelf>(shelf: &mut H, name: &str) -> Result<(), Stop> {
    shelf.make(name)
}

fn append<H: Shelf>(shelf: &mut H, name: &str, piece: &[u8]) -> Result<(), Stop> {
    shelf.append(name, piece)
}

/// Whether the shelf has the name with these octets.
fn has(shelf: &MemoryShelf, name: &str, octets: &[u8]) -> bool {
    match shelf.octets(name) {
        Some(held) => held == octets,
        None => false,
    }
}

#[test]
fn memory_source_fails_in_its_second_read(rt: HostRuntime) -> Result<(), Fail> {
    let octets = [1u8, 2, 3, 4, 5].to_vec(rt.alloc())?;
    let failing = [2u64].to_vec(rt.alloc())?;
    let mut source = MemorySource::new(octets, 2, failing);
    assert_eq!(rt; read_three(&mut source), (Ok(2), [1, 2, 0]));
    assert_eq!(rt; read_three(&mut source), (Err(Failed), [0, 0, 0]));
    assert_eq!(rt; read_three(&mut source), (Ok(2), [3, 4, 0]));
    assert_eq!(rt; read_three(&mut source), (Ok(1), [5, 0, 0]));
    assert_eq!(rt; read_three(&mut source), (Ok(0), [0, 0, 0]));
    Ok(())
}

#[test]
fn calm_source_gives_all(rt: HostRuntime) -> Result<(), Fail> {
    let mut source = CalmSource::new([7u8, 8, 9].to_vec(rt.alloc())?, 2);
    assert_eq!(rt; read_three(&mut source), (Ok(2), [7, 8, 0]));
    assert_eq!(rt; read_three(&mut source), (Ok(1), [9, 0, 0]));
    assert_eq!(rt; read_three(&mut source), (Ok(0), [0, 0, 0]));
    Ok(())
}

#[test]
fn read_source_gives_what_its_reader_gives(rt: HostRuntime) {
    let octets = [1u8, 2, 3, 4];
    let mut source = ReadSource::new(octets.as_slice());
    assert_eq!(rt; read_three(&mut source), (Ok(3), [1, 2, 3]));
    assert_eq!(rt; read_three(&mut source), (Ok(1), [4, 0, 0]));
    assert_eq!(rt; read_three(&mut source), (Ok(0), [0, 0, 0]));
}

#[test]
fn memory_sink_fails_in_its_second_and_fourth_call(rt: HostRuntime) -> Result<(), Fail> {
    let failing = [2u64, 4].to_vec(rt.alloc())?;
    let mut sink = MemorySink::new(rt.alloc(), 2, failing);
    assert_eq!(rt; write_to(&mut sink, &[7, 8, 9]), Ok(2));
    assert_eq!(rt; write_to(&mut sink, &[9]), Err(Stop::Failed));
    assert_eq!(rt; write_to(&mut sink, &[9]), Ok(1));
    assert_eq!(rt; finish(&mut sink), Err(Stop::Failed));
    assert_eq!(rt; finish(&mut sink), Ok(()));
    assert_eq!(rt; sink.octets(), [7u8, 8, 9].as_slice());
    Ok(())
}

#[test]
fn calm_sink_takes_pieces(rt: HostRuntime) {
    let mut sink = CalmSink::new(rt.alloc(), 2);
    assert_eq!(rt; write_to(&mut sink, &[7, 8, 9]), Ok(2));
    assert_eq!(rt; write_to(&mut sink, &[9]), Ok(1));
    assert_eq!(rt; finish(&mut sink), Ok(()));
    assert_eq!(rt; sink.octets(), [7u8, 8, 9].as_slice());
}

#[test]
fn write_sink_writes_to_its_writer(rt: HostRuntime) {
    let mut written = Vec::new(rt.alloc());
    let mut sink = WriteSink::new(&mut written);
    assert_eq!(rt; write_to(&mut sink, &[1, 2, 3]), Ok(3));
    assert_eq!(rt; finish(&mut sink), Ok(()));
    drop(sink);
    assert_eq!(rt; written.as_slice(), [1u8, 2, 3].as_slice());
}

#[test]
fn write_of_nothing_is_a_fault(rt: HostRuntime) {
    let mut room = [0u8; 2];
    let mut sink = WriteSink::new(room.as_mut_slice());
    assert_eq!(rt; write_to(&mut sink, &[1, 2, 3]), Ok(2));
    assert_eq!(rt; write_to(&mut sink, &[3]), Err(Stop::Failed));
    assert_eq!(rt; write_to(&mut sink, &[]), Ok(0));
}

#[test]
fn memory_shelf_fails_in_its_third_call(rt: HostRuntime) -> Result<(), Fail> {
    let failing = [3u64].to_vec(rt.alloc())?;
    let mut shelf = MemoryShelf::new(rt.alloc(), failing);
    shelf.put("b", &[9])?;
    assert_eq!(rt; make(&mut shelf, "a"), Ok(()));
    assert_eq!(rt; append(&mut shelf, "a", &[1, 2]), Ok(()));
    assert_eq!(rt; append(&mut shelf, "a", &[3]), Err(Stop::Failed));
    assert_eq!(rt; append(&mut shelf, "a", &[3]), Ok(()));
    assert_eq!(rt; append(&mut shelf, "c", &[5]), Ok(()));
    assert_eq!(rt; make(&mut shelf, "b"), Ok(()));
    assert!(rt; has(&shelf, "a", &[1, 2, 3]));
    assert!(rt; has(&shelf, "b", &[]));
    assert!(rt; has(&shelf, "c", &[5]));
    assert!(rt; shelf.octets("d").is_none());
    Ok(())
}

#[test]
fn shelf_is_read_from_an_offset_on(rt: HostRuntime) -> Result<(), Fail> {
    let mut shelf = MemoryShelf::new(rt.alloc(), [5u64].to_vec(rt.alloc())?);
    shelf.put("a", &[1, 2, 3])?;
    assert_eq!(rt; read_two(&mut shelf, "a", 0), (Ok(2), [1, 2]));
    assert_eq!(rt; read_two(&mut shelf, "a", 2), (Ok(1), [3, 0]));
    assert_eq!(rt; read_two(&mut shelf, "a", 3), (Ok(0), [0, 0]));
    assert_eq!(rt;
        read_two(&mut shelf, "b", 0),
        (Err(ShelfStop::Absent), [0, 0])
    );
    assert_eq!(rt;
        read_two(&mut shelf, "a", 0),
        (Err(ShelfStop::Failed), [0, 0])
    );
    Ok(())
}

/// A reader and a writer of std whose first call is interrupted. Later ones read nothing and take all,
/// and a flush fails.
#[derive(Drop)]
struct Interrupted {
    calls: u32,
}

impl Interrupted {
    fn call(&mut self) -> io::Result<()> {
        self.calls = self.calls.saturating_add(1);
        if self.calls == 1 {
            return Err(io::Error::from(io::ErrorKind::Interrupted));
        }
        Ok(())
    }
}

impl Read for Interrupted {
    fn read(&mut self, _buf: &mut [u8]) -> io::Result<usize> {
        self.call()?;
        Ok(0)
    }
}

impl Write for Interrupted {
    fn write(&mut self, buf: &[u8]) -> io::Result<usize> {
        self.call()?;
        Ok(buf.len())
    }

    fn flush(&mut self) -> io::Result<()> {
        Err(io::Error::from(io::ErrorKind::BrokenPipe))
    }
}

#[test]
fn interrupted_read_is_a_fault(rt: HostRuntime) {
    let mut source = ReadSource::new(Interrupted { calls: 0 });
    assert_eq!(rt; read_three(&mut source), (Err(Failed), [0, 0, 0]));
    assert_eq!(rt; read_three(&mut source), (Ok(0), [0, 0, 0]));
}

#[test]
fn interrupted_write_and_refused_flush_are_faults(rt: HostRuntime) {
    let mut sink = WriteSink::new(Interrupted { calls: 0 });
    assert_eq!(rt; write_to(&mut sink, &[1, 2]), Err(Stop::Failed));
    assert_eq!(rt; write_to(&mut sink, &[1, 2]), Ok(2));
    assert_eq!(rt; finish(&mut sink), Err(Stop::Failed));
}

#[test]
fn file_shelf_keeps_octets_in_a_file(rt: HostRuntime) -> Result<(), Fail> {
    let name = "/tmp/grib-io-file-shelf.1";
    let mut shelf = FileShelf::new(rt.clone()?);
    assert_eq!(rt; append(&mut shelf, name, &[9]), Ok(()));
    assert_eq!(rt; make(&mut shelf, name), Ok(()));
    assert_eq!(rt; append(&mut shelf, name, &[1, 2, 3]), Ok(()));
    assert_eq!(rt; append(&mut shelf, name, &[4]), Ok(()));
    assert_eq!(rt; read_two(&mut shelf, name, 1), (Ok(2), [2, 3]));
    assert_eq!(rt; read_two(&mut shelf, name, 3), (Ok(1), [4, 0]));
    assert_eq!(rt; read_two(&mut shelf, name, 4), (Ok(0), [0, 0]));
    // A file is no folder: what would be in it is no absent name.
    let inside = "/tmp/grib-io-file-shelf.1/part";
    assert_eq!(rt;
        read_two(&mut shelf, inside, 0),
        (Err(ShelfStop::Failed), [0, 0])
    );
    fs::remove_file(&rt, name)?;
    assert_eq!(rt;
        read_two(&mut shelf, name, 0),
        (Err(ShelfStop::Absent), [0, 0])
    );
    assert_eq!(rt; make(&mut shelf, "/tmp"), Err(Stop::Failed));
    assert_eq!(rt; append(&mut shelf, "/tmp", &[1]), Err(Stop::Failed));
    assert_eq!(rt;
        read_two(&mut shelf, "/tmp", 0),
        (Err(ShelfStop::Failed), [0, 0])
    );
    Ok(())
}

// An `append` that writes a part of a long piece and answers that all was written is refused by this test alone.
#[test]
fn file_shelf_keeps_long_pieces(rt: HostRuntime) -> Result<(), Fail> {
    let name = "/tmp/grib-io-file-shelf.2";
    let mut shelf = FileShelf::new(rt.clone()?);
    let piece = vec![in rt.alloc(); 7u8; 200_000]?;
    assert_eq!(rt; make(&mut shelf, name), Ok(()));
    assert_eq!(rt; append(&mut shelf, name, piece.as_slice()), Ok(()));
    assert_eq!(rt; append(&mut shelf, name, &[8, 9]), Ok(()));
    assert_eq!(rt; read_two(&mut shelf, name, 0), (Ok(2), [7, 7]));
    assert_eq!(rt; read_two(&mut shelf, name, 199_999), (Ok(2), [7, 8]));
    assert_eq!(rt; read_two(&mut shelf, name, 200_001), (Ok(1), [9, 0]));
    fs::remove_file(&rt, name)?;
    Ok(())
}
