// The writer of the program's input: a map record and job records into a buffer that the caller lends. A writer is
// plain data: a call takes one and answers one that is moved past the record. Any numbers may stand in it.
ghost use Rattle.writer.specs.Records.{job_of};
ghost use Rattle.writer.specs.Writing.{put_map, put_job};
ghost use Rattle.capi.specs.Writing.{WritesRecordTo};

use writer::Writer;

// A call's answer, and the writer afterwards: at a refusal the one handed in.
#[repr(C)]
#[derive(Clone, Copy)]
pub struct WriteResult {
    pub writer: Writer,
    pub answer: u8,
}

// Writing a map record.
pub fn lurfanzi_write_map(
    writer: Writer,
    width: u32,
    height: u32,
    map: &[u8],
    buffer: &mut [u8],
) -> WriteResult
    ensures { WritesRecordTo writer (put_map width height map.now) buffer.old result
        buffer.new }
{
    let done = writer.put_map(width as usize, height as usize, map, buffer);
    WriteResult {
        writer: done.writer,
        answer: floor::answer_number(done.answer),
    }
}

// Writing a job record.
pub fn lurfanzi_write_job(
    writer: Writer,
    neighbourhood: u8,
    a: u16,
    b: u16,
    buffer: &mut [u8],
) -> WriteResult
    ensures { WritesRecordTo writer (put_job (job_of neighbourhood a b)) buffer.old result
        buffer.new }
{
    let done = writer.put_job(neighbourhood, a, b, buffer);
    WriteResult {
        writer: done.writer,
        answer: floor::answer_number(done.answer),
    }
}
