// The writer of the program's input.
ghost use Rattle.writer.specs.Records.{job_of};
ghost use Rattle.writer.specs.Writing.{put_map, put_job};
ghost use Rattle.capi.specs.Writing.{WritesRecordTo};

use capi::writing::WriteResult;
use writer::Writer;

// Writing a map record.
#[unsafe(no_mangle)]
pub extern "C" fn lurfanzi_write_map(
    writer: Writer,
    width: u32,
    height: u32,
    map: &[u8],
    buffer: &mut [u8],
) -> WriteResult
    ensures { WritesRecordTo writer (put_map width height map.now) buffer.old result
        buffer.new }
{
    capi::writing::lurfanzi_write_map(writer, width, height, map, buffer)
}

// Writing a job record.
#[unsafe(no_mangle)]
pub extern "C" fn lurfanzi_write_job(
    writer: Writer,
    neighbourhood: u8,
    a: u16,
    b: u16,
    buffer: &mut [u8],
) -> WriteResult
    ensures { WritesRecordTo writer (put_job (job_of neighbourhood a b)) buffer.old result
        buffer.new }
{
    capi::writing::lurfanzi_write_job(writer, neighbourhood, a, b, buffer)
}
