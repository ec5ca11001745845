use std::io::{ErrorKind, Read, Write};
use std::test::Fail;
use vc_base::{Sink, Source, StdSink, StdSource};

// A stream of std whose first call fails, and no later one.
#[derive(Drop)]
struct FailsFirst {
    kind: ErrorKind,
    calls: u32,
}

impl FailsFirst {
    fn call(&mut self) -> std::io::Result<()> {
        self.calls = self.calls.wrapping_add(1);
        if self.calls == 1 {
            return Err(self.kind.into());
        }
        Ok(())
    }
}

impl Read for FailsFirst {
    fn read(&mut self, buf: &mut [u8]) -> std::io::Result<usize> {
        if buf.is_empty() {
            return Ok(0);
        }
        self.call()?;
        Ok(1)
    }
}

impl Write for FailsFirst {
    fn write(&mut self, buf: &[u8]) -> std::io::Result<usize> {
        if buf.is_empty() {
            return Ok(0);
        }
        self.call()?;
        Ok(1)
    }

    fn flush(&mut self) -> std::io::Result<()> {
        Ok(())
    }
}

// A failed call of a stream of std isn't made again: the second would not fail.
#[test]
fn failing_streams(rt: HostRuntime) -> Result<(), Fail> {
    for kind in [ErrorKind::Interrupted, ErrorKind::Other] {
        let mut source = StdSource::new(FailsFirst { kind, calls: 0 });
        let mut sink = StdSink::new(FailsFirst { kind, calls: 0 });
        let mut buf = [0; 2];
        for faults in [1, 1] {
            let is_first = source.faults() == 0;
            assert!(rt; source.read(&mut buf).is_err() == is_first);
            assert!(rt; source.faults() == faults);
            assert!(rt; sink.write(b"ab").is_err() == is_first);
            assert!(rt; sink.faults() == faults);
        }
    }
    Ok(())
}
