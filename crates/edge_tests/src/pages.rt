//! Text printed through a page.
ghost use Rattle.std.specs.Prelude.{◌<◌};

use io_edges::{
    Failed, MemSink, Page, Sink, WriteFault, finish, print, print_number, print_numbers,
};
use std::test::Fail;

/// A sink that takes one byte in a call.
#[derive(Drop)]
struct OneByteSink {
    sink: MemSink,
}

impl Sink for OneByteSink {
    ghost use Rattle.std.specs.Prelude.{Some};

    ghost taken = { λ s. Some s.sink.taken };

    ghost faults = { λ s. s.sink.faults };

    ghost keeps = { λ _ _. Unit {0} };

    fn write(&mut self, piece: &[u8]) -> Result<usize, Failed> {
        self.sink.write(&piece[..1])
    }

    ghost keeps_none = { λ _. tt };

    ghost keeps_more = { λ _ _ _ _ _. tt };
}

/// Prints pieces and numbers, 62 bytes in all.
fn print_line<K: Sink>(sink: &mut K) -> Result<(), WriteFault> {
    let mut page = Page::new();
    print(sink, &mut page, b"Flow rule #");
    print_number(sink, &mut page, 4294967295u32);
    print(sink, &mut page, b" created: queues ");
    print_numbers(sink, &mut page, &[0u64, 17, 18446744073709551615]);
    finish(sink, page)
}

/// Where the sink fails, the answer, and what was taken.
type Row = (Option<u64>, Result<(), WriteFault>, &'static [u8]);

#[test]
fn a_sink_of_single_bytes_takes_the_text_up_to_its_fault(rt: HostRuntime) -> Result<(), Fail> {
    let rows: [Row; 2] = [
        (
            None,
            Ok(()),
            b"Flow rule #4294967295 created: queues 0,17,18446744073709551615",
        ),
        (
            Some(40),
            Err(WriteFault { sent: 40 }),
            b"Flow rule #4294967295 created: queues 0,",
        ),
    ];
    for (fail_at, answer, text) in rows {
        let sink = MemSink::new(rt.alloc(), 64, fail_at)?;
        let mut sink = OneByteSink { sink };
        assert_eq!(rt; print_line(&mut sink), answer);
        assert_eq!(rt; sink.sink.taken(), text);
    }
    Ok(())
}
