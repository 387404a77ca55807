// The library for C: include/rntuple_check.h declares these calls. Each is the call of `exports` with the same name. A slice is passed as a pointer and a length.
#![tactic(auto)]

ghost use Rattle.std.specs.Prelude.{◌≡◌, length};
ghost use Rattle.checksum.specs.Crc.{crc32};
ghost use Rattle.header.specs.Tables.{header_of};
ghost use Rattle.footer.specs.Tables.{footer_beside};
ghost use Rattle.page_list.specs.Tables.{page_list_beside};
ghost use Rattle.pairing.specs.Paired.{paired_beside};
ghost use Rattle.writing.specs.Answers.{header_to_write, footer_to_write, page_list_to_write};
ghost use Rattle.page_rules.specs.Page.{asks, decode_outcome, decoded};
ghost use Rattle.outcome.specs.Outcome.{code_of};
ghost use Rattle.envelope_calls.specs.Calls.{HeaderCall, MovesCall, FooterCall, PageListCall};
ghost use Rattle.list_calls.specs.Calls.{ListCall};
ghost use Rattle.write_calls.specs.Calls.{WriteCall, texts_at};
ghost use Rattle.page_calls.specs.Calls.{EncodeCall, ColumnCall};
ghost use Rattle.true_count.specs.True.{count_outcome};
ghost use Rattle.figure_calls.specs.Calls.{ReportCall};
ghost use Rattle.answers.specs.Handed.{Tells};
ghost use Rattle.exports.specs.Calls.{BytesCall, is_utf8};

#[unsafe(no_mangle)]
pub extern "C" fn rnt_crc32(bytes: &[u8]) -> u32
    ensures { BytesCall crc32 bytes.now result }
{
    exports::rnt_crc32(bytes)
}

#[unsafe(no_mangle)]
pub extern "C" fn rnt_is_utf8(bytes: &[u8]) -> u32
    ensures { BytesCall is_utf8 bytes.now result }
{
    exports::rnt_is_utf8(bytes)
}

#[unsafe(no_mangle)]
pub extern "C" fn rnt_read_header(
    envelope: &[u8],
    fields: &mut [u64],
    columns: &mut [u64],
    aliases: &mut [u64],
    res: &mut [u64],
) -> u32
    ensures { HeaderCall (header_of envelope.now) fields.old fields.new columns.old columns.new aliases.old aliases.new res.old res.new result }
{
    exports::rnt_read_header(envelope, fields, columns, aliases, res)
}

#[unsafe(no_mangle)]
pub extern "C" fn rnt_parent_moves(envelope: &[u8], res: &mut [u64]) -> u32
    ensures { MovesCall (header_of envelope.now) res.old res.new result }
{
    exports::rnt_parent_moves(envelope, res)
}

#[unsafe(no_mangle)]
pub extern "C" fn rnt_list_fields(envelope: &[u8], out: &mut [u8], res: &mut [u64]) -> u32
    ensures { ListCall envelope.now out.old out.new res.old res.new result }
{
    exports::rnt_list_fields(envelope, out, res)
}

#[unsafe(no_mangle)]
pub extern "C" fn rnt_read_footer(
    header: &[u8],
    footer: &[u8],
    file_length: u64,
    clusters: &mut [u64],
    metadata: &mut [u64],
    res: &mut [u64],
) -> u32
    ensures { FooterCall (footer_beside header.now footer.now file_length) clusters.old clusters.new metadata.old metadata.new res.old res.new result }
{
    exports::rnt_read_footer(header, footer, file_length, clusters, metadata, res)
}

#[unsafe(no_mangle)]
pub extern "C" fn rnt_read_page_list(
    header: &[u8],
    page_list: &[u8],
    entries: u64,
    file_length: u64,
    pages: &mut [u64],
    res: &mut [u64],
) -> u32
    ensures { PageListCall (page_list_beside header.now page_list.now entries file_length) pages.old pages.new res.old res.new result }
{
    exports::rnt_read_page_list(header, page_list, entries, file_length, pages, res)
}

#[unsafe(no_mangle)]
pub extern "C" fn rnt_read_paired_page_list(
    header: &[u8],
    page_list: &[u8],
    entries: u64,
    checksum: u64,
    file_length: u64,
    pages: &mut [u64],
    res: &mut [u64],
) -> u32
    ensures { PageListCall (paired_beside header.now page_list.now entries checksum file_length) pages.old pages.new res.old res.new result }
{
    exports::rnt_read_paired_page_list(
        header,
        page_list,
        entries,
        checksum,
        file_length,
        pages,
        res,
    )
}

#[unsafe(no_mangle)]
pub extern "C" fn rnt_write_header(
    strings: &[u8],
    name_place: u64,
    name_length: u64,
    description_place: u64,
    description_length: u64,
    fields: &[u64],
    columns: &[u64],
    aliases: &[u64],
    out: &mut [u8],
    res: &mut [u64],
) -> u32
    ensures { WriteCall 1 (header_to_write strings.now (texts_at name_place name_length description_place description_length) fields.now columns.now aliases.now) out.old out.new res.old res.new result }
{
    exports::rnt_write_header(
        strings,
        name_place,
        name_length,
        description_place,
        description_length,
        fields,
        columns,
        aliases,
        out,
        res,
    )
}

#[unsafe(no_mangle)]
pub extern "C" fn rnt_write_footer(
    header: &[u8],
    file_length: u64,
    clusters: &[u64],
    metadata: &[u64],
    out: &mut [u8],
    res: &mut [u64],
) -> u32
    ensures { WriteCall 2 (footer_to_write header.now file_length clusters.now metadata.now) out.old out.new res.old res.new result }
{
    exports::rnt_write_footer(header, file_length, clusters, metadata, out, res)
}

#[unsafe(no_mangle)]
pub extern "C" fn rnt_write_page_list(
    header: &[u8],
    entries: u64,
    file_length: u64,
    pages: &[u64],
    out: &mut [u8],
    res: &mut [u64],
) -> u32
    ensures { WriteCall 3 (page_list_to_write header.now entries file_length pages.now) out.old out.new res.old res.new result }
{
    exports::rnt_write_page_list(header, entries, file_length, pages, out, res)
}

#[unsafe(no_mangle)]
pub extern "C" fn rnt_decode_page(
    column_type: u32,
    elements: u64,
    checksum: u32,
    page: &[u8],
    words: &mut [u64],
    start: u64,
) -> u32
    ensures answers { result ≡ code_of (decode_outcome column_type elements (asks checksum) page.now (length words.old) start) }
    ensures leaves { words.new ≡ decoded column_type elements (asks checksum) page.now words.old start }
{
    exports::rnt_decode_page(column_type, elements, checksum, page, words, start)
}

#[unsafe(no_mangle)]
pub extern "C" fn rnt_encode_page(
    column_type: u32,
    elements: u64,
    checksum: u32,
    words: &[u64],
    start: u64,
    page: &mut [u8],
    res: &mut [u64],
) -> u32
    ensures { EncodeCall column_type elements checksum words.now start page.old page.new res.old res.new result }
{
    exports::rnt_encode_page(column_type, elements, checksum, words, start, page, res)
}

#[unsafe(no_mangle)]
pub extern "C" fn rnt_decode_column(
    column_type: u32,
    pages: &[u64],
    file: &[u8],
    words: &mut [u64],
    res: &mut [u64],
) -> u32
    ensures { ColumnCall column_type pages.now file.now words.old words.new res.old res.new result }
{
    exports::rnt_decode_column(column_type, pages, file, words, res)
}

#[unsafe(no_mangle)]
pub extern "C" fn rnt_report_page_list(
    header: &[u8],
    page_list: &[u8],
    entries: u64,
    file_length: u64,
    accepted: u64,
    refused: u64,
    report: &mut [u64],
    res: &mut [u64],
) -> u32
    ensures { ReportCall (page_list_beside header.now page_list.now entries file_length) accepted refused report.old report.new res.old res.new result }
{
    exports::rnt_report_page_list(
        header,
        page_list,
        entries,
        file_length,
        accepted,
        refused,
        report,
        res,
    )
}

#[unsafe(no_mangle)]
pub extern "C" fn rnt_count_true(elements: u64, checksum: u32, page: &[u8], res: &mut [u64]) -> u32
    ensures { Tells 1 (count_outcome elements (asks checksum) page.now) res.old res.new result }
{
    exports::rnt_count_true(elements, checksum, page, res)
}
