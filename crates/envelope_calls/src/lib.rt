// The calls on envelopes, with numbers and lent slices alone: what each answers is one number and the words of a lent result.
#![tactic(auto)]

ghost use Rattle.header.specs.Tables.{header_of};
ghost use Rattle.footer.specs.Tables.{footer_beside};
ghost use Rattle.page_list.specs.Tables.{page_list_beside};
ghost use Rattle.pairing.specs.Paired.{paired_beside};
ghost use Rattle.envelope_calls.specs.Calls.{HeaderCall, MovesCall, FooterCall, PageListCall};

use answers::RESULT_TOO_SHORT;

pub fn read_header(
    envelope: &[u8],
    fields: &mut [u64],
    columns: &mut [u64],
    aliases: &mut [u64],
    res: &mut [u64],
) -> u32
    ensures { HeaderCall (header_of envelope.now) fields.old fields.new columns.old columns.new aliases.old aliases.new res.old res.new result }
{
    if res.len() < 7 {
        return RESULT_TOO_SHORT;
    }
    let answer = header_reader::read_header(envelope, fields, columns, aliases);
    answers::tell_header(answer, res)
}

pub fn parent_moves(envelope: &[u8], res: &mut [u64]) -> u32
    ensures { MovesCall (header_of envelope.now) res.old res.new result }
{
    if res.len() < 1 {
        return RESULT_TOO_SHORT;
    }
    let answer = moves::parent_moves(envelope);
    answers::tell_moves(answer, res)
}

pub fn read_footer(
    header: &[u8],
    footer: &[u8],
    file_length: u64,
    clusters: &mut [u64],
    metadata: &mut [u64],
    res: &mut [u64],
) -> u32
    ensures { FooterCall (footer_beside header.now footer.now file_length) clusters.old clusters.new metadata.old metadata.new res.old res.new result }
{
    if res.len() < 2 {
        return RESULT_TOO_SHORT;
    }
    let answer = footer::read_footer(header, footer, file_length, clusters, metadata);
    answers::tell_footer(answer, res)
}

pub fn read_page_list(
    header: &[u8],
    page_list: &[u8],
    entries: u64,
    file_length: u64,
    pages: &mut [u64],
    res: &mut [u64],
) -> u32
    ensures { PageListCall (page_list_beside header.now page_list.now entries file_length) pages.old pages.new res.old res.new result }
{
    if res.len() < 1 {
        return RESULT_TOO_SHORT;
    }
    let answer = page_list::read_page_list(header, page_list, entries, file_length, pages);
    answers::tell_page_list(answer, res)
}

pub fn read_paired_page_list(
    header: &[u8],
    page_list: &[u8],
    entries: u64,
    checksum: u64,
    file_length: u64,
    pages: &mut [u64],
    res: &mut [u64],
) -> u32
    ensures { PageListCall (paired_beside header.now page_list.now entries checksum file_length) pages.old pages.new res.old res.new result }
{
    if res.len() < 1 {
        return RESULT_TOO_SHORT;
    }
    let answer = pairing::read_paired_page_list(
        header,
        page_list,
        entries,
        checksum,
        file_length,
        pages,
    );
    answers::tell_page_list(answer, res)
}
